// A host that answers from a list of readings, and repeats the last for ever.
ghost use Rattle.std.specs.Prelude.{◌≡◌, [], IfOk};
ghost use Rattle.host.specs.Leaving.{places};
ghost use Rattle.host.specs.Showing.{shown, tape};

use crate::clock::Clock;
use crate::notes::NotesHost;
use std::alloc::{AllocError, Global};
use std::collections::VecDeque;

#[derive(Drop)]
pub struct Tape {
    readings: VecDeque<u64>,
}

impl Clock for Tape {
    ghost to_come = { tape };

    // The next reading of the tape comes after this one, and the last stays. With no reading it reads 0.
    fn read(&mut self) -> u64 {
        let reading = self.readings.front().copied().unwrap_or(0);
        if self.readings.len() > 1 {
            self.readings.pop_front();
        }
        reading
    }
}

pub type TapeHost = NotesHost<Tape>;

impl TapeHost {
    // These readings to come, and no note.
    pub fn new(heap: Global, readings: &[u64]) -> Result<TapeHost, AllocError>
        ensures { IfOk result (λ h. (tape h.clock ≡ readings.now) × ((shown tape h).notes ≡ []) × ((shown tape h).spare ≡ places)) }
    {
        let readings = VecDeque::from_vec(Vec::from_slice(heap, readings)?);
        NotesHost::with_clock(heap, Tape { readings })
    }
}
