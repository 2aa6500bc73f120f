// Empty tables, and what can be asked of them.
ghost use Rattle.std.specs.Prelude.{◌≡◌, IfOk};
ghost use Rattle.std.specs.Option.{ok_or};
ghost use Rattle.ei.specs.declared.error.EventError.TheVariants as refusals;
ghost use Rattle.store.specs.Moves.{has_pending};
ghost use Rattle.tables.specs.Model.{fresh, Bounded};
ghost use Rattle.tables.specs.Refusal.{refusal, checked, of_places, of_places_and_handles};
ghost use Rattle.tables.specs.Rules.{next_handle, no_handle, no_places_for, owner_of};

use super::Tables;
use crate::shortage::Shortage;
use ei::error::EventError;
use ei::object::Object;
use records::table::Table;
use std::alloc::{AllocError, Global};
use store::EventStore;

impl Tables {
    // Empty tables with all their room reserved.
    pub fn new(heap: Global, serial: u32) -> Result<Tables, AllocError>
        ensures { IfOk result (λ t. t ≡ fresh serial) }
    {
        let seats = Table::new(heap)?;
        let devices = Table::new(heap)?;
        let callbacks = Table::new(heap)?;
        let store = EventStore::new(heap)?;
        Ok(Tables {
            serial,
            handles: 0,
            seats,
            devices,
            callbacks,
            store,
        })
    }

    // The last serial that the server sent. Whoever asks is told of all bounds; each table and the store know their own, and are asked for it.
    pub fn serial(&self) -> u32
        ensures value { result ≡ self.now.serial }
        ensures bounds { Bounded self.now }
    {
        let _ = self.seats.rows();
        let _ = self.devices.rows();
        let _ = self.callbacks.rows();
        let _ = self.store.held();
        self.serial
    }

    // Whether an event of a device waits for its frame.
    pub fn has_pending(&self, device: u32) -> bool
        ensures { result ≡ has_pending device self.now.store }
    {
        self.store.has_pending(device)
    }

    // Whether an untimed event of a device, and the frame that it may force, find no place.
    pub(super) fn lacks_places(&self, device: u32) -> bool
        ensures { result ≡ no_places_for device self.now.store }
    {
        !self.store.can_queue_framed(device)
    }

    // Refuses an untimed event of a device for which there is no place.
    pub(super) fn check_places(&self, device: u32) -> Result<(), EventError>
        ensures { result ≡ checked (refusal (of_places (no_places_for device self.now.store))) tt }
    {
        let short = Shortage {
            store_full: self.lacks_places(device),
            ..Shortage::NONE
        };
        short.check()
    }

    // The next handle, refused where there is none or where what tells of it finds no place.
    pub(super) fn next_handle(&self, store_full: bool) -> Result<u32, EventError>
        ensures { result ≡ checked (refusal (of_places_and_handles store_full (no_handle self.now))) (next_handle self.now) }
    {
        let short = Shortage {
            store_full,
            handles_used_up: self.handles >= 1_000_000,
            ..Shortage::NONE
        };
        short.check()?;
        Ok(self.handles + 1)
    }

    // The handle that owns an object.
    pub(super) fn owner(&self, object: Object) -> Result<u32, EventError>
        ensures { result ≡ ok_or (owner_of object self.now) refusals.DeviceEventBeforeDone }
    {
        self.devices
            .owner(object)
            .ok_or(EventError::DeviceEventBeforeDone)
    }
}
