// What the hosts, the store and the converter do, and which lines of a session are refused.
mod event_store;
mod hosts;
mod limits;
mod lines;
mod order;
mod play;
mod refusals;
mod retiring;
