// The words of the EI protocol that the converter speaks: capabilities, objects, texts, events and refusals.
#![tactic(auto)]

pub mod capability;
pub mod device;
pub mod enums;
pub mod error;
pub mod event;
pub mod interface;
pub mod object;
pub mod proto;
pub mod set;
pub mod text;
