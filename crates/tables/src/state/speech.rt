// What a live device says of itself.
ghost use Rattle.std.specs.Prelude.{◌≡◌, ℕ, is_ok, if◌then◌else◌};
ghost use Rattle.std.specs.Option.{ok_or};
ghost use Rattle.ei.specs.declared.error.EventError.TheVariants as refusals;
ghost use Rattle.ei.specs.declared.event.EiEvent.{EiEvent};
ghost use Rattle.tables.specs.Model.{with_serial};
ghost use Rattle.tables.specs.Rests.{Gives, Makes};
ghost use Rattle.tables.specs.Rules.{device_speaks};
ghost use Rattle.tables.specs.Parts.{live_handle, untimed_said};

use super::Tables;
use crate::rest::Rest;
use ei::error::EventError;
use ei::event::EiEvent;
use records::standing::Key;

impl Tables {
    // What a live device says of itself is an untimed event of its handle. A struct of device and serial would be no plainer: each event has
    // the two as its own fields, and they part here.
    pub(super) fn says<F: FnOnce(u32) -> EiEvent>(
        &mut self,
        device: u64,
        serial: u32,
        event: F,
    ) -> Result<Rest, EventError>
        requires { F.IsAlwaysCallable event }
        ensures { (make : ℕ → EiEvent) → Makes (F.post event) make → Gives (λ v. device_speaks v device serial make self.old) result self.new }
    {
        let handle = self.live_device(device, serial)?;
        self.untimed(handle, serial, event(handle))
    }

    // The handle of a live device. Where there is none the serial is set all the same.
    pub(super) fn live_device(&mut self, device: u64, serial: u32) -> Result<u32, EventError>
        ensures answer { result ≡ ok_or (live_handle device self.old) refusals.DeviceEventBeforeDone }
        ensures after { self.new ≡ (if is_ok result then self.old else with_serial serial self.old) }
    {
        let handle = self
            .devices
            .first(Key::live(device))
            .map(|row| row.head.handle);
        self.handle_or_serial(handle, serial)
    }

    // The handle that an event with a serial is for. Where there is none the serial is set all the same.
    pub(super) fn handle_or_serial(
        &mut self,
        handle: Option<u32>,
        serial: u32,
    ) -> Result<u32, EventError>
        ensures answer { result ≡ ok_or handle refusals.DeviceEventBeforeDone }
        ensures after { self.new ≡ (if is_ok result then self.old else with_serial serial self.old) }
    {
        if handle.is_none() {
            self.serial = serial;
        }
        handle.ok_or(EventError::DeviceEventBeforeDone)
    }

    // An untimed event of a device, where it and the frame that it may force find their places.
    pub(super) fn untimed(
        &mut self,
        device: u32,
        serial: u32,
        event: EiEvent,
    ) -> Result<Rest, EventError>
        ensures { Gives (λ v. untimed_said v device serial event self.old) result self.new }
    {
        self.check_places(device)?;
        self.serial = serial;
        Ok(Rest::Untimed { device, event })
    }
}
