// A note is left at the end and taken from the front.
ghost use Rattle.std.specs.Prelude.{◌≡◌, [], IfOk};
ghost use Rattle.host.specs.Leaving.{Takes, WaitsOn};
ghost use Rattle.host.specs.Reading.{first_of, onward};
ghost use Rattle.host.specs.Showing.{shown};

use super::{NotesHost, PLACES};
use crate::clock::Clock;
use crate::{Host, Note};
use std::alloc::{AllocError, Global};
use std::collections::VecDeque;

impl<C: Clock> NotesHost<C> {
    // A host with this clock, where no note waits.
    pub(crate) fn with_clock(heap: Global, clock: C) -> Result<NotesHost<C>, AllocError>
    where
        C: Drop,
        ensures { IfOk result (λ h. (h.clock ≡ clock) × ((shown C.to_come h).notes ≡ [])) }
    {
        let waiting = VecDeque::with_capacity(heap, PLACES)?;
        Ok(NotesHost { clock, waiting })
    }

    // Takes the oldest waiting note, and gives its place back.
    pub fn take_note(&mut self) -> Option<Note>
        ensures taken { Takes result (shown C.to_come self.old) (shown C.to_come self.new) }
        ensures clock { self.new.clock ≡ self.old.clock }
    {
        self.waiting.pop_front()
    }
}

impl<C: Clock> Host for NotesHost<C> {
    ghost state = { shown C.to_come };

    ghost stays = { λ before after. after.clock ≡ before.clock };

    // The next reading of the clock comes after this one.
    fn now(&mut self) -> u64
        ensures value { result ≡ first_of (C.to_come self.old.clock) }
        ensures waits { WaitsOn (shown C.to_come self.old) (shown C.to_come self.new) }
        ensures next { C.to_come self.new.clock ≡ onward (C.to_come self.old.clock) }
    {
        self.clock.read()
    }

    fn leave(&mut self, note: Note) -> bool {
        if self.waiting.len() == PLACES {
            return false;
        }
        self.waiting.push_back_reserved(note);
        true
    }
}
