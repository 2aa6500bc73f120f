// The converter's tables in one plain struct, and what each event does to them.
#![tactic(auto)]

pub mod rest;
pub mod shortage;
pub mod state;
