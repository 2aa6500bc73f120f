// Records that are no longer wanted.
ghost use Rattle.std.specs.Prelude.{◌≡◌, nat_eq, if◌then◌else◌};
ghost use Rattle.ei.specs.declared.error.EventError.TheVariants as refusals;
ghost use Rattle.records.specs.Rows.{any};
ghost use Rattle.tables.specs.Rules.{device_retired, owns_any, seat_retired};
ghost use Rattle.tables.specs.Parts.{unused};

use super::Tables;
use ei::capability::DeviceCapability;
use ei::error::EventError;
use records::device::DeviceRow;
use records::list::InterfaceList;
use records::standing::{Head, Standing};

impl Tables {
    // The two calls share `check_unused`; whose table it is, what it must not have and what is discarded is each one's own. What it has is
    // sought for a detached record alone, so that a live one is refused at once.

    // Frees the record of a device that owns nothing, and discards its pending events.
    pub fn retire_device(&mut self, handle: u32) -> Result<(), EventError>
        ensures answer { result ≡ (device_retired handle self.old).answer }
        ensures after { self.new ≡ (device_retired handle self.old).after }
    {
        let row = self
            .devices
            .by_handle(handle)
            .ok_or(EventError::NoSuchHandle)?;
        let has_own = row.head.standing == Standing::Detached && owns_any(&row.list);
        self.check_unused(row.head, has_own)?;
        self.devices.remove_handle(handle);
        self.store.discard(handle);
        Ok(())
    }

    // Frees the record of a seat that no device, however it stands, is of.
    pub fn retire_seat(&mut self, handle: u32) -> Result<(), EventError>
        ensures answer { result ≡ (seat_retired handle self.old).answer }
        ensures after { self.new ≡ (seat_retired handle self.old).after }
    {
        let row = self
            .seats
            .by_handle(handle)
            .ok_or(EventError::NoSuchHandle)?;
        let head = row.head;
        let has_own = head.standing == Standing::Detached
            && some_of_seat(self.devices.rows(), head.handle);
        self.check_unused(head, has_own)?;
        self.seats.remove_handle(handle);
        Ok(())
    }

    // Refuses a record that is not detached, that has something of its own, or that an event still to be handed out names.
    fn check_unused(&self, head: Head, has_own: bool) -> Result<(), EventError>
        ensures { result ≡ (if unused head has_own self.now.store then Ok tt else Err refusals.HandleBusy) }
    {
        let in_use = head.standing != Standing::Detached
            || has_own
            || self.store.names(head.handle);
        if in_use {
            return Err(EventError::HandleBusy);
        }
        Ok(())
    }
}

// Whether a device's handle owns something that the device lists.
fn owns_any(list: &InterfaceList) -> bool
    ensures { result ≡ owns_any list.now.entries }
{
    DeviceCapability::ALL
        .iter()
        .any(|kind| list.get(*kind).is_some_and(|entry| entry.owned))
}

// Whether a device, however it stands, is of a seat.
fn some_of_seat(devices: &[DeviceRow], seat: u32) -> bool
    ensures { result ≡ any (λ device. nat_eq device.seat seat) devices.now }
{
    devices.iter().any(|device| device.seat == seat)
}
