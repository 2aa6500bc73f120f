// What is said of a device while it is set up.
ghost use Rattle.std.specs.Prelude.{◌≡◌};
ghost use Rattle.std.specs.Option.{ok_or};
ghost use Rattle.std.specs.Result.{result_map_both};
ghost use Rattle.ei.specs.Texts.{text_of};
ghost use Rattle.ei.specs.declared.error.EventError.TheVariants as refusals;
ghost use Rattle.records.specs.declared.device.Detail.{Detail};
ghost use Rattle.tables.specs.Calls.{device_region, device_interface};
ghost use Rattle.tables.specs.Rests.{Gives, Takes};
ghost use Rattle.tables.specs.Rules.{device_told, of_pending_device};
ghost use Rattle.tables.specs.Parts.{pending_device, worded, GivesOnly};

use super::Tables;
use crate::rest::Rest;
use crate::shortage::Shortage;
use ei::device::Region;
use ei::error::EventError;
use ei::object::Object;
use ei::text::Text;
use records::device::{Detail, DeviceRow, DeviceStep, Stage};
use records::standing::{Key, Record};

impl Tables {
    // The device that is being set up.
    pub(super) fn pending(&self, device: u64) -> Result<&DeviceRow, EventError>
        ensures { result_map_both (λ row. row.now) (λ e. e) result ≡ ok_or (pending_device device self.now) refusals.DeviceSetupEventAfterDone }
    {
        self.devices
            .first(Key::pending(device))
            .ok_or(EventError::DeviceSetupEventAfterDone)
    }

    // A pending device is told something.
    pub(super) fn device_told(&mut self, device: u64, stage: Stage) -> Result<Rest, EventError>
        ensures { let m = self.old in Gives (λ _. of_pending_device device m (λ _. device_told device stage m)) result self.new }
    {
        self.pending(device)?;
        self.take_stage(device, stage)
    }

    // The same of a device that was found already, so that it is sought but once more.
    fn take_stage(&mut self, device: u64, stage: Stage) -> Result<Rest, EventError>
        ensures { let m = self.old in Gives (λ _. device_told device stage m) result self.new }
    {
        self.devices
            .step(Key::pending(device), DeviceStep::Take(stage));
        Ok(Rest::Nothing)
    }

    // A pending device is told a text, as this detail.
    pub(super) fn device_worded<F: FnOnce(Text) -> Detail>(
        &mut self,
        device: u64,
        text: &[u8],
        detail: F,
    ) -> Result<Rest, EventError>
        requires { F.IsAlwaysCallable detail }
        ensures { (d : Detail) → GivesOnly (F.post detail (text_of text.now)) d → Gives (λ _. worded device text.now d self.old) result self.new }
    {
        self.pending(device)?;
        let text = Shortage::NONE.check_text(text)?;
        self.take_stage(device, Stage::Setup(detail(text)))
    }

    pub(super) fn device_placed(&mut self, device: u64, region: Region) -> Result<Rest, EventError>
        ensures { Takes (device_region device region) self.old result self.new }
    {
        let row = self.pending(device)?;
        let short = Shortage {
            regions_full: row.description.regions.is_full(),
            ..Shortage::NONE
        };
        short.check()?;
        self.take_stage(device, Stage::Setup(Detail::Region(region)))
    }

    // An object of no kind is not kept.
    pub(super) fn device_equipped(
        &mut self,
        device: u64,
        object: Option<Object>,
    ) -> Result<Rest, EventError>
        ensures { Takes (device_interface device object) self.old result self.new }
    {
        self.pending(device)?;
        match object {
            Some(object) => self.take_stage(device, Stage::Interface(object)),
            None => Ok(Rest::Nothing),
        }
    }
}
