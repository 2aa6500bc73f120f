// The lines of a session, read as the calls that they ask for.
#![tactic(auto)]

mod events;
mod fields;
mod lines;
mod rest;

pub use lines::{Line, parse};
