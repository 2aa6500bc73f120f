// A host with a clock and places for 64 notes, reserved once.
ghost use Rattle.std.specs.Prelude.{◌≤◌};
ghost use Rattle.std.specs.VecDeque.{deque_len, deque_capacity};
ghost use Rattle.host.specs.Leaving.{places};

use crate::Note;
use std::collections::VecDeque;

mod hosting;

const PLACES: usize = 64;

#[derive(Drop)]
pub struct NotesHost<C> {
    pub(crate) clock: C,
    waiting: VecDeque<Note>,
    ghost bounded: { deque_len waiting ≤ places },
    ghost room: { places ≤ deque_capacity waiting },
}
