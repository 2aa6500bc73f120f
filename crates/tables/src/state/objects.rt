// What is said of an interface object.
ghost use Rattle.std.specs.Prelude.{◌≡◌, ℕ, [], not};
ghost use Rattle.ei.specs.declared.event.EiEvent.{EiEvent};
ghost use Rattle.store.specs.Moves.{can_hold, hold};
ghost use Rattle.tables.specs.Calls.{keymap, object_destroyed};
ghost use Rattle.tables.specs.Model.{done, unless, with_store};
ghost use Rattle.tables.specs.Refusal.{refusal, of_places};
ghost use Rattle.tables.specs.Rests.{Gives, Makes, Takes};
ghost use Rattle.tables.specs.Rules.{keyboard_modified, owner_acts, serial_anyway};

use super::Tables;
use super::acts::object_of;
use crate::rest::Rest;
use ei::capability::DeviceCapability;
use ei::device::Keymap;
use ei::error::EventError;
use ei::event::EiEvent;
use ei::object::Object;
use records::device::{Detail, DeviceStep, Stage};

impl Tables {
    #[tactic(auto, using(crate::proofs::Refused::changed_never))]
    pub(super) fn keymap_arrives(&mut self, keyboard: u64, map: Keymap) -> Result<Rest, EventError>
        ensures { Takes (keymap keyboard map) self.old result self.new }
    {
        let step = DeviceStep::Take(Stage::Setup(Detail::Keymap(map)));
        if self.devices.step_lister(keyboard, step) {
            Ok(Rest::Nothing)
        } else {
            Err(EventError::DeviceSetupEventAfterDone)
        }
    }

    // What an object says waits, as an event of the device that owns it, for that device's frame.
    pub(super) fn act<F: FnOnce(u32) -> EiEvent>(
        &mut self,
        object: Object,
        event: F,
    ) -> Result<Rest, EventError>
        requires { F.IsAlwaysCallable event }
        ensures { (make : ℕ → EiEvent) → Makes (F.post event) make → Gives (λ _. owner_acts object [] make self.old) result self.new }
    {
        let device = self.owner(object)?;
        self.hold(event(device))
    }

    // The modifiers of a keyboard are an untimed event of the device that owns it.
    pub(super) fn modifiers<F: FnOnce(u32) -> EiEvent>(
        &mut self,
        keyboard: u64,
        serial: u32,
        event: F,
    ) -> Result<Rest, EventError>
        requires { F.IsAlwaysCallable event }
        ensures { (make : ℕ → EiEvent) → Makes (F.post event) make → Gives (λ v. keyboard_modified v keyboard serial make self.old) result self.new }
    {
        let owner = self
            .devices
            .owner(object_of(DeviceCapability::Keyboard, keyboard));
        let device = self.handle_or_serial(owner, serial)?;
        self.untimed(device, serial, event(device))
    }

    // A timed event waits for the frame of its device.
    #[tactic(auto, using(crate::proofs::Refused::refused_hold))]
    pub(super) fn hold(&mut self, event: EiEvent) -> Result<Rest, EventError>
        ensures { let m = self.old in Gives (λ _. unless (refusal (of_places (not (can_hold m.store)))) m (done (with_store (hold event m.store) m))) result self.new }
    {
        self.store.hold(event)?;
        Ok(Rest::Nothing)
    }

    #[tactic(auto, using(crate::proofs::Refused::changed_never))]
    pub(super) fn object_gone(&mut self, object: Object, serial: u32) -> Result<Rest, EventError>
        ensures { Takes (object_destroyed object serial) self.old result self.new }
    {
        let owned = self
            .devices
            .step_owner(object, DeviceStep::Forget(object.kind));
        if owned || serial_anyway(object.kind) {
            self.serial = serial;
            Ok(Rest::Nothing)
        } else {
            Err(EventError::DeviceEventBeforeDone)
        }
    }
}

// Destroyed of a keyboard or a text sets the serial even where nobody owns it.
fn serial_anyway(kind: DeviceCapability) -> bool
    ensures { result ≡ serial_anyway kind }
{
    matches!(kind, DeviceCapability::Keyboard | DeviceCapability::Text)
}
