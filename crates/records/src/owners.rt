ghost use Rattle.std.specs.Prelude.{◌≡◌};
ghost use Rattle.records.specs.Owners.{owns_it, pending_lists, entry_is};
ghost use Rattle.records.specs.Devices.{device_stepped};
ghost use Rattle.records.specs.Rows.{Finds, first, any, changed};
ghost use Rattle.std.specs.Option.{option_map};

use crate::device::{DeviceRow, DeviceStep};
use crate::search::place_of;
use crate::table::Table;
use ei::capability::DeviceCapability;
use ei::object::Object;

impl<const N: usize> Table<DeviceRow, N> {
    // The handle that owns an object.
    pub fn owner(&self, object: Object) -> Option<u32>
        ensures { result ≡ option_map (λ row. row.head.handle) (first (owns_it object) self.now) }
    {
        let row = self.found(owner_place(self.rows(), object));
        row.map(|row| row.head.handle)
    }

    // The two steps differ in their search, and share `step_found`.

    // The device that owns an object takes a step; false where nobody owns it.
    pub fn step_owner(&mut self, object: Object, step: DeviceStep) -> bool
        ensures answer { result ≡ any (owns_it object) self.old }
        ensures after { self.new ≡ changed (owns_it object) (λ row. device_stepped row step) self.old }
    {
        let place = owner_place(self.rows(), object);
        self.step_found(place, step)
    }

    // The first pending device that lists a keyboard takes a step; false where none lists it.
    pub fn step_lister(&mut self, keyboard: u64, step: DeviceStep) -> bool
        ensures answer { result ≡ any (pending_lists keyboard) self.old }
        ensures after { self.new ≡ changed (pending_lists keyboard) (λ row. device_stepped row step) self.old }
    {
        let place = pending_lister(self.rows(), keyboard);
        self.step_found(place, step)
    }
}

// The place of the device that owns an object.
fn owner_place(devices: &[DeviceRow], object: Object) -> Option<usize>
    ensures { Finds (owns_it object) devices.now 0 result }
{
    place_of(devices, 0, |device| device.list.owns(object))
}

// The place of the first pending device that lists a keyboard, in the order of their Device events.
// Kept: the project's rule asks for nested loops left by a label with the device found.
fn pending_lister(devices: &[DeviceRow], keyboard: u64) -> Option<usize>
    ensures { Finds (pending_lists keyboard) devices.now 0 result }
{
    'found: {
        for (i, device) in devices.iter().enumerate() {
            if device.head.is_pending() {
                for kind in DeviceCapability::ALL {
                    if is_keyboard(device, kind, keyboard) {
                        break 'found Some(i);
                    }
                }
            }
        }
        None
    }
}

// Whether what the device lists of a kind is the keyboard of this number.
fn is_keyboard(device: &DeviceRow, kind: DeviceCapability, keyboard: u64) -> bool
    ensures { result ≡ entry_is keyboard kind device.now.list }
{
    matches!((kind, device.list.get(kind)), (DeviceCapability::Keyboard, Some(entry)) if entry.object == keyboard)
}
