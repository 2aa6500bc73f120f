// What the program asks, and what is done once the host has been asked.
ghost use Rattle.std.specs.Prelude.{◌≡◌};
ghost use Rattle.std.specs.Option.{option_map};
ghost use Rattle.records.specs.Rows.{first, without};
ghost use Rattle.store.specs.Moves.{given, queue_framed, rest};
ghost use Rattle.tables.specs.Model.{with_callbacks, with_store};
ghost use Rattle.tables.specs.Rules.{callback_added, callback_at, device_by_handle, frame_of, seat_by_handle};

use super::Tables;
use ei::error::EventError;
use ei::event::{EiEvent, Frame};
use records::callback::CallbackRow;
use records::device::DeviceRow;
use records::seat::SeatRow;
use records::standing::{Key, Record};

impl Tables {
    // An untimed event of a device is queued, behind a frame at this time where something is pending for the device. Where they do not
    // fit nothing changes.
    pub fn queue_untimed(&mut self, device: u32, time: u64, event: EiEvent)
        ensures { self.new ≡ with_store (queue_framed (frame_of device self.old.serial time) event self.old.store) self.old }
    {
        let frame = Frame {
            device,
            serial: self.serial,
            time,
        };
        // The places were tested as the tables took the event, and a refusal changes nothing, so there is none to hand on.
        let _ = self.store.queue_framed(frame, event);
    }

    // A callback is gone.
    pub fn forget_callback(&mut self, callback: u64)
        ensures { self.new ≡ with_callbacks (without (callback_at callback) self.old.callbacks) self.old }
    {
        self.callbacks.remove(Key::live(callback));
    }

    // The oldest queued event.
    pub fn next(&mut self) -> Option<EiEvent>
        ensures answer { result ≡ given self.old.store }
        ensures after { self.new ≡ with_store (rest self.old.store) self.old }
    {
        self.store.next()
    }

    // A ticket for a callback, in place of an earlier one.
    pub fn add_callback(&mut self, callback: u64, ticket: u32) -> Result<(), EventError>
        ensures answer { result ≡ (callback_added callback ticket self.old).answer }
        ensures after { self.new ≡ (callback_added callback ticket self.old).after }
    {
        if self.callbacks.has(Key::live(callback)) {
            self.callbacks.step(Key::live(callback), ticket);
            return Ok(());
        }
        self.callbacks.push(CallbackRow { callback, ticket })
    }

    // The seat of a handle.
    pub fn seat(&self, handle: u32) -> Option<&SeatRow>
        ensures { option_map (λ x. x.now) result ≡ first (seat_by_handle handle) self.now.seats }
    {
        self.seats.by_handle(handle)
    }

    // The device of a handle.
    pub fn device(&self, handle: u32) -> Option<&DeviceRow>
        ensures { option_map (λ x. x.now) result ≡ first (device_by_handle handle) self.now.devices }
    {
        self.devices.by_handle(handle)
    }
}
