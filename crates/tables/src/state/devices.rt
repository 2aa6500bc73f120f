// What is said of a device that is done, and its Done.
ghost use Rattle.std.specs.Prelude.{◌≡◌};
ghost use Rattle.records.specs.declared.device.DeviceStep.TheVariants as steps;
ghost use Rattle.records.specs.declared.standing.Standing.TheVariants as standings;
ghost use Rattle.tables.specs.Calls.{device_done, device_frame, device_destroyed};
ghost use Rattle.tables.specs.Model.{with_devices};
ghost use Rattle.tables.specs.Rests.{Takes};
ghost use Rattle.tables.specs.Rules.{all_step, device_steps};

use super::Tables;
use crate::rest::Rest;
use ei::error::EventError;
use ei::event::{DeviceAdded, DeviceRemoved, EiEvent, Frame};
use records::device::{DeviceStep, Stage};
use records::list::InterfaceList;
use records::standing::{Key, Record};

impl Tables {
    // Former owners give up what the device lists, and the live device of the number is detached, before the pending one is live.
    pub(super) fn device_ready(&mut self, device: u64) -> Result<Rest, EventError>
        ensures { Takes (device_done device) self.old result self.new }
    {
        let row = self.pending(device)?;
        let list = row.list;
        if row.description.device_type.is_none() {
            self.devices.remove(Key::pending(device));
            return Err(EventError::NoDeviceType);
        }
        let handle = self.next_handle(self.lacks_places(self.handles + 1))?;
        let done = DeviceStep::Take(Stage::Done(handle));
        self.give_way(device, list, done);
        self.devices.step(Key::pending(device), done);
        self.handles = handle;
        Ok(Rest::Untimed {
            device: handle,
            event: EiEvent::DeviceAdded(DeviceAdded { device: handle }),
        })
    }

    #[tactic(auto, using(crate::proofs::Refused::refused_commit))]
    pub(super) fn device_framed(
        &mut self,
        device: u64,
        serial: u32,
        time: u64,
    ) -> Result<Rest, EventError>
        ensures { Takes (device_frame device serial time) self.old result self.new }
    {
        let device = self.live_device(device, serial)?;
        let frame = Frame {
            device,
            serial,
            time,
        };
        self.store.commit(frame)?;
        self.serial = serial;
        Ok(Rest::Nothing)
    }

    pub(super) fn device_gone(&mut self, device: u64, serial: u32) -> Result<Rest, EventError>
        ensures { Takes (device_destroyed device serial) self.old result self.new }
    {
        let Some(row) = self.devices.first(Key::live(device)) else {
            self.devices.remove(Key::pending(device));
            self.serial = serial;
            return Ok(Rest::Nothing);
        };
        let list = row.list;
        let handle = row.head.handle;
        self.check_places(handle)?;
        self.devices.remove(Key::pending(device));
        self.give_way(device, list, DeviceStep::Take(Stage::Destroyed));
        self.serial = serial;
        Ok(Rest::Untimed {
            device: handle,
            event: EiEvent::DeviceRemoved(DeviceRemoved { device: handle }),
        })
    }

    // The ownership of all that is listed ends, whoever has it, and the live device of a number takes the step that detaches it.
    fn give_way(&mut self, device: u64, list: InterfaceList, detach: DeviceStep)
        ensures { self.new ≡ with_devices (device_steps device standings.Live detach (all_step (steps.GiveUp list) self.old.devices)) self.old }
    {
        self.devices.step_all(DeviceStep::GiveUp(list));
        self.devices.step(Key::live(device), detach);
    }
}
