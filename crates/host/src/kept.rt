// A host whose reading the program sets.
ghost use Rattle.std.specs.Prelude.{◌≡◌, [], IfOk};
ghost use Rattle.host.specs.Leaving.{WaitsOn, places};
ghost use Rattle.host.specs.Showing.{shown, kept};

use crate::clock::Clock;
use crate::notes::NotesHost;
use std::alloc::{AllocError, Global};

// A clock that stands until it is set.
#[derive(Drop)]
pub struct KeptClock {
    reading: u64,
}

impl Clock for KeptClock {
    ghost to_come = { kept };

    fn read(&mut self) -> u64 {
        self.reading
    }
}

pub type KeptHost = NotesHost<KeptClock>;

impl KeptHost {
    // Reading 0, and no note.
    pub fn new(heap: Global) -> Result<KeptHost, AllocError>
        ensures { IfOk result (λ h. shown kept h ≡ record { reading = 0; notes = []; spare = places }) }
    {
        NotesHost::with_clock(heap, KeptClock { reading: 0 })
    }

    // The reading from now on.
    pub fn set_reading(&mut self, micros: u64)
        ensures reading { (shown kept self.new).reading ≡ micros }
        ensures waits { WaitsOn (shown kept self.old) (shown kept self.new) }
    {
        self.clock.reading = micros;
    }
}
