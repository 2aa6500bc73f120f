// Sessions with a converter: worked ones, which are proved, and tests.
#![tactic(auto)]

pub mod event;
pub mod line;
pub mod samples;
#[cfg(test)]
mod tests;
pub mod worked;
