// What is said again and again in sessions.
use ei::capability::DeviceCapability;
use ei::enums::{KeyState, KeymapType};
use ei::object::Object;
use ei::proto::{CallbackEvent, KeyboardEvent};

pub const KEYBOARD: Object = Object {
    kind: DeviceCapability::Keyboard,
    number: 301,
};

pub const SECOND_KEYBOARD: Object = Object {
    kind: DeviceCapability::Keyboard,
    number: 302,
};

pub const PRESS_30: KeyboardEvent = KeyboardEvent::Key {
    key: 30,
    state: KeyState::Press,
};

pub const RELEASE_30: KeyboardEvent = KeyboardEvent::Key {
    key: 30,
    state: KeyState::Released,
};

pub const PRESS_31: KeyboardEvent = KeyboardEvent::Key {
    key: 31,
    state: KeyState::Press,
};

pub const MODIFIERS_11: KeyboardEvent = KeyboardEvent::Modifiers {
    serial: 11,
    depressed: 1,
    locked: 2,
    latched: 4,
    group: 0,
};

pub const KEYMAP: KeyboardEvent = KeyboardEvent::Keymap {
    keymap_type: KeymapType::Xkb,
    size: 100,
    keymap: 3,
};

pub const DONE: CallbackEvent = CallbackEvent::Done { callback_data: 4 };
