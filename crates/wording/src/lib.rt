// Lines of words: their numbers, their floats and their quoted texts.
#![tactic(auto)]

mod digits;
mod malformed;
mod quote;
mod words;

pub use digits::{decimal, float, integer};
pub use malformed::Malformed;
pub use quote::{Quoted, unquote};
pub use words::Words;
