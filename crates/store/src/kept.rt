// The places of the store: 256 for pending and queued events together, reserved once.
use ei::event::EiEvent;
use std::collections::VecDeque;
use std::marker::Model;

mod asks;
mod moves;
mod pending;

const PLACES: usize = 256;

// A timed event leaves two places free, for a frame and for what may force it.
const TIMED_PLACES: usize = 254;

// Seen as what it holds: the pending and the queued events, each in the order of arrival.
#[derive(Drop)]
pub struct EventStore {
    pending: Vec<EiEvent>,
    queued: VecDeque<EiEvent>,
}

impl Model for EventStore {
    ghost use Rattle.std.specs.Prelude.{vec_len, vec_capacity, vec_items};
    ghost use Rattle.std.specs.VecDeque.{deque_len, deque_capacity, deque_items};
    ghost use Rattle.store.specs.Moves.{Contents};
    ghost use Rattle.store.specs.Room.{Room};

    ghost Value = { Contents };

    ghost view = { λ s. record { pending = vec_items s.pending; queued = deque_items s.queued } };

    ghost invariant = { λ s. Room (vec_len s.pending) (deque_len s.queued) (vec_capacity s.pending) (deque_capacity s.queued) };
}
