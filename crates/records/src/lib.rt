// The rows kept for seats, devices and callbacks, and the tables that hold them.
#![tactic(auto)]

pub mod callback;
pub mod device;
pub mod list;
pub mod owners;
pub mod regions;
pub mod search;
pub mod seat;
pub mod standing;
pub mod table;
