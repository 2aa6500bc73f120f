// What is said of a seat.
ghost use Rattle.std.specs.Prelude.{◌≡◌, if◌then◌else◌};
ghost use Rattle.ei.specs.declared.error.EventError.TheVariants as refusals;
ghost use Rattle.records.specs.Rows.{any};
ghost use Rattle.records.specs.declared.standing.Standing.TheVariants as standings;
ghost use Rattle.tables.specs.Calls.{seat_name, seat_capability, seat_done, seat_device, seat_destroyed};
ghost use Rattle.tables.specs.Rests.{Gives, Takes};
ghost use Rattle.tables.specs.Rules.{seat_at};
ghost use Rattle.tables.specs.Parts.{seat_told};

use super::Tables;
use crate::rest::Rest;
use crate::shortage::Shortage;
use ei::capability::DeviceCapability;
use ei::error::EventError;
use ei::event::{EiEvent, SeatAdded, SeatRemoved};
use records::device::DeviceRow;
use records::seat::{SeatSetup, SeatStep};
use records::standing::{Key, Record};

impl Tables {
    // A pending seat, which was found already, is told something. This file and that of devices are alike where they look a row up and step
    // it: over two tables, with rows, steps and refusals of other types, which one function would have to take apart again.
    fn seat_detailed(&mut self, seat: u64, detail: SeatSetup) -> Result<Rest, EventError>
        ensures { Gives (λ _. seat_told seat detail self.old) result self.new }
    {
        self.seats.step(Key::pending(seat), SeatStep::Setup(detail));
        Ok(Rest::Nothing)
    }

    pub(super) fn seat_named(&mut self, seat: u64, name: &[u8]) -> Result<Rest, EventError>
        ensures { Takes (seat_name seat name.now) self.old result self.new }
    {
        self.pending_seat(seat)?;
        let name = Shortage::NONE.check_text(name)?;
        self.seat_detailed(seat, SeatSetup::Name(name))
    }

    pub(super) fn seat_capable(
        &mut self,
        seat: u64,
        mask: u64,
        interface: Option<DeviceCapability>,
    ) -> Result<Rest, EventError>
        ensures { Takes (seat_capability seat mask interface) self.old result self.new }
    {
        self.pending_seat(seat)?;
        let capability = interface.ok_or(EventError::UnknownCapabilityInterface)?;
        self.seat_detailed(seat, SeatSetup::Capability(capability, mask))
    }

    // The live seat of the number is detached before the pending one is live, so that each step finds its own row.
    pub(super) fn seat_ready(&mut self, seat: u64) -> Result<Rest, EventError>
        ensures { Takes (seat_done seat) self.old result self.new }
    {
        self.pending_seat(seat)?;
        let handle = self.next_handle(!self.store.fits(1))?;
        self.store
            .queue(EiEvent::SeatAdded(SeatAdded { seat: handle }))?;
        self.seats.step(Key::live(seat), SeatStep::Done(handle));
        self.seats.step(Key::pending(seat), SeatStep::Done(handle));
        self.handles = handle;
        Ok(Rest::Nothing)
    }

    pub(super) fn device_arrives(&mut self, seat: u64, device: u64) -> Result<Rest, EventError>
        ensures { Takes (seat_device seat device) self.old result self.new }
    {
        let row = self
            .seats
            .first(Key::live(seat))
            .ok_or(EventError::SeatEventBeforeDone)?;
        let new = DeviceRow::new(device, row.head.handle);
        self.devices.renew(Key::pending(device), new)?;
        Ok(Rest::Nothing)
    }

    #[tactic(auto, using(crate::proofs::Refused::refused_queue))]
    pub(super) fn seat_gone(&mut self, seat: u64, serial: u32) -> Result<Rest, EventError>
        ensures { Takes (seat_destroyed seat serial) self.old result self.new }
    {
        let Some(row) = self.seats.first(Key::live(seat)) else {
            self.seats.remove(Key::pending(seat));
            self.serial = serial;
            return Ok(Rest::Nothing);
        };
        let event = SeatRemoved {
            seat: row.head.handle,
        };
        self.store.queue(EiEvent::SeatRemoved(event))?;
        self.seats.remove(Key::pending(seat));
        self.seats.step(Key::live(seat), SeatStep::Destroyed);
        self.serial = serial;
        Ok(Rest::Nothing)
    }

    // Refuses a seat that is not being set up.
    fn pending_seat(&self, seat: u64) -> Result<(), EventError>
        ensures { result ≡ (if any (seat_at seat standings.Pending) self.now.seats then Ok tt else Err refusals.SeatSetupEventAfterDone) }
    {
        EventError::SeatSetupEventAfterDone.unless(self.seats.has(Key::pending(seat)))
    }
}
