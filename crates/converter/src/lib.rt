// The converter: low-level events in, kept events out.
#![tactic(auto)]

pub mod convert;
