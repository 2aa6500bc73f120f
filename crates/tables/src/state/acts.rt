// What an interface object says.
ghost use Rattle.std.specs.Prelude.{◌≡◌};
ghost use Rattle.tables.specs.Rests.{Takes};
ghost use Rattle.tables.specs.Told.{object_of, keyboard_call, pointer_call, pointer_absolute_call, button_call};

use super::Tables;
use crate::rest::Rest;
use ei::capability::DeviceCapability;
use ei::device::Keymap;
use ei::error::EventError;
use ei::event::{
    Button, EiEvent, KeyboardKey, KeyboardModifiers, PointerMotion, PointerMotionAbsolute,
};
use ei::object::Object;
use ei::proto::{ButtonEvent, KeyboardEvent, PointerAbsoluteEvent, PointerEvent};

pub(super) fn object_of(kind: DeviceCapability, number: u64) -> Object
    ensures { result ≡ object_of kind number }
{
    Object { kind, number }
}

// Each interface has its own events by the protocol; what their functions share is `act` and `object_gone`.
impl Tables {
    pub(super) fn keyboard_event(
        &mut self,
        keyboard: u64,
        event: KeyboardEvent,
    ) -> Result<Rest, EventError>
        ensures { Takes (keyboard_call keyboard event) self.old result self.new }
    {
        let object = object_of(DeviceCapability::Keyboard, keyboard);
        match event {
            KeyboardEvent::Keymap {
                keymap_type,
                size,
                keymap,
            } => self.keymap_arrives(
                keyboard,
                Keymap {
                    fd: keymap,
                    size,
                    type_: keymap_type,
                },
            ),
            KeyboardEvent::Key { key, state } => self.act(object, |device| {
                EiEvent::KeyboardKey(KeyboardKey {
                    device,
                    time: 0,
                    key,
                    state,
                })
            }),
            KeyboardEvent::Modifiers {
                serial,
                depressed,
                locked,
                latched,
                group,
            } => self.modifiers(keyboard, serial, |device| {
                EiEvent::KeyboardModifiers(KeyboardModifiers {
                    device,
                    serial,
                    depressed,
                    latched,
                    locked,
                    group,
                })
            }),
            KeyboardEvent::Destroyed { serial } => self.object_gone(object, serial),
        }
    }

    pub(super) fn pointer_event(
        &mut self,
        pointer: u64,
        event: PointerEvent,
    ) -> Result<Rest, EventError>
        ensures { Takes (pointer_call pointer event) self.old result self.new }
    {
        let object = object_of(DeviceCapability::Pointer, pointer);
        match event {
            PointerEvent::MotionRelative { x, y } => self.act(object, |device| {
                EiEvent::PointerMotion(PointerMotion {
                    device,
                    time: 0,
                    dx: x,
                    dy: y,
                })
            }),
            PointerEvent::Destroyed { serial } => self.object_gone(object, serial),
        }
    }

    pub(super) fn pointer_absolute_event(
        &mut self,
        pointer: u64,
        event: PointerAbsoluteEvent,
    ) -> Result<Rest, EventError>
        ensures { Takes (pointer_absolute_call pointer event) self.old result self.new }
    {
        let object = object_of(DeviceCapability::PointerAbsolute, pointer);
        match event {
            PointerAbsoluteEvent::MotionAbsolute { x, y } => self.act(object, |device| {
                EiEvent::PointerMotionAbsolute(PointerMotionAbsolute {
                    device,
                    time: 0,
                    dx_absolute: x,
                    dy_absolute: y,
                })
            }),
            PointerAbsoluteEvent::Destroyed { serial } => self.object_gone(object, serial),
        }
    }

    pub(super) fn button_event(
        &mut self,
        button: u64,
        event: ButtonEvent,
    ) -> Result<Rest, EventError>
        ensures { Takes (button_call button event) self.old result self.new }
    {
        let object = object_of(DeviceCapability::Button, button);
        match event {
            ButtonEvent::Button { button, state } => self.act(object, |device| {
                EiEvent::Button(Button {
                    device,
                    time: 0,
                    button,
                    state,
                })
            }),
            ButtonEvent::Destroyed { serial } => self.object_gone(object, serial),
        }
    }
}
