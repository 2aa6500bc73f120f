// The event store: events that wait for their device's frame, and events that are queued to be handed out.
#![tactic(auto)]

mod kept;
mod laws;

pub use kept::EventStore;
pub use laws::store_laws;
