// What changes the store. A move that does not fit is refused, and then nothing has changed.
#![tactic(auto, unfolding(crate::specs::Moves::held, crate::specs::Moves::fits, crate::specs::Moves::can_hold, crate::specs::Moves::can_commit, crate::specs::Moves::can_queue_framed, crate::specs::Moves::pended, crate::specs::Moves::added, crate::specs::Moves::others, crate::specs::Moves::hold, crate::specs::Moves::commit, crate::specs::Moves::queue, crate::specs::Moves::queue_framed, crate::specs::Moves::given, crate::specs::Moves::rest, crate::specs::Moves::discard))]

ghost use Rattle.std.specs.Prelude.{◌≡◌, IfOk};
ghost use Rattle.store.specs.Moves.{nothing, done_if, can_hold, hold, can_commit, commit, fits, queue, can_queue_framed, queue_framed, given, rest, discard};

use super::pending::{queue_at, take_out};
use super::{EventStore, PLACES};
use ei::error::EventError;
use ei::event::{EiEvent, Frame};
use std::alloc::{AllocError, Global};
use std::collections::VecDeque;

impl EventStore {
    // An empty store with all its places reserved.
    pub fn new(heap: Global) -> Result<EventStore, AllocError>
        ensures { IfOk result (λ s. s ≡ nothing) }
    {
        let pending = Vec::with_capacity(heap, PLACES)?;
        let queued = VecDeque::with_capacity(heap, PLACES)?;
        Ok(EventStore { pending, queued })
    }

    // A timed event waits, with time 0, for its device's frame.
    pub fn hold(&mut self, event: EiEvent) -> Result<(), EventError>
        ensures answer { result ≡ done_if (can_hold self.old) }
        ensures after { self.new ≡ hold event self.old }
    {
        EventError::StoreFull.unless(self.can_hold())?;
        self.pending.push_reserved(event.at_time(0));
        Ok(())
    }

    // A frame queues what is pending for its device, at its time, and then itself; it does nothing where nothing is pending.
    pub fn commit(&mut self, frame: Frame) -> Result<(), EventError>
        ensures answer { result ≡ done_if (can_commit frame self.old) }
        ensures after { self.new ≡ commit frame self.old }
    {
        // `can_commit` in two steps, so that what is pending is looked through once
        if !self.has_pending(frame.device) {
            return Ok(());
        }
        EventError::StoreFull.unless(self.fits(1))?;
        queue_at(&self.pending, frame.device, frame.time, &mut self.queued);
        take_out(&mut self.pending, frame.device);
        self.queued.push_back_reserved(EiEvent::Frame(frame));
        Ok(())
    }

    // An event joins the end of the queue.
    pub fn queue(&mut self, event: EiEvent) -> Result<(), EventError>
        ensures answer { result ≡ done_if (fits 1 self.old) }
        ensures after { self.new ≡ queue event self.old }
    {
        EventError::StoreFull.unless(self.fits(1))?;
        self.queued.push_back_reserved(event);
        Ok(())
    }

    // A forced frame is committed and then the event is queued, or neither.
    pub fn queue_framed(&mut self, frame: Frame, event: EiEvent) -> Result<(), EventError>
        ensures answer { result ≡ done_if (can_queue_framed frame self.old) }
        ensures after { self.new ≡ queue_framed frame event self.old }
    {
        EventError::StoreFull.unless(self.can_queue_framed(frame.device))?;
        self.commit(frame)?;
        self.queue(event)
    }

    // Hands out the oldest queued event.
    pub fn next(&mut self) -> Option<EiEvent>
        ensures answer { result ≡ given self.old }
        ensures after { self.new ≡ rest self.old }
    {
        self.queued.pop_front()
    }

    // What is pending for a device is gone.
    pub fn discard(&mut self, device: u32)
        ensures { self.new ≡ discard device self.old }
    {
        take_out(&mut self.pending, device);
    }
}
