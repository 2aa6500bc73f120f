// What can be asked of the store. No question changes it.
#![tactic(auto, unfolding(crate::specs::Moves::of, crate::specs::Moves::held, crate::specs::Moves::fits, crate::specs::Moves::can_hold, crate::specs::Moves::can_commit))]

ghost use Rattle.std.specs.Prelude.{◌≡◌, ◌≤◌, cond};
ghost use Rattle.store.specs.Moves.{held, fits, of, has_pending, names, can_hold, can_commit};

use super::{EventStore, PLACES, TIMED_PLACES};
use ei::event::{EiEvent, Frame};

impl EventStore {
    // How many events are pending or queued.
    pub fn held(&self) -> usize
        ensures value { result ≡ held self.now }
        ensures bound { result ≤ 256 }
    {
        self.pending.len() + self.queued.len()
    }

    // Whether so many more find a place.
    pub fn fits(&self, more: usize) -> bool
        ensures { result ≡ fits more self.now }
    {
        more <= PLACES - self.held()
    }

    // Whether an event of this device waits for its frame.
    pub fn has_pending(&self, device: u32) -> bool
        ensures { result ≡ has_pending device self.now }
    {
        self.pending.iter().any(|event| is_of(event, device))
    }

    // Whether a queued event names this handle, as a seat or as a device.
    pub fn names(&self, handle: u32) -> bool
        ensures { result ≡ names handle self.now }
    {
        self.queued.iter().any(|event| event.handle() == handle)
    }

    // Whether a timed event finds a place.
    pub fn can_hold(&self) -> bool
        ensures { result ≡ can_hold self.now }
    {
        self.held() < TIMED_PLACES
    }

    // Whether a frame, if it queues anything, finds a place.
    pub fn can_commit(&self, frame: Frame) -> bool
        ensures { result ≡ can_commit frame self.now }
    {
        !self.has_pending(frame.device) || self.fits(1)
    }

    // Whether an untimed event of a device, and the frame that it may force, find a place each.
    pub fn can_queue_framed(&self, device: u32) -> bool
        ensures { result ≡ fits (cond (has_pending device self.now) 2 1) self.now }
    {
        self.fits(if self.has_pending(device) { 2 } else { 1 })
    }
}

// Whether the event is this device's.
pub(super) fn is_of(event: &EiEvent, device: u32) -> bool
    ensures { result ≡ of device event.now }
{
    event.device() == Some(device)
}
