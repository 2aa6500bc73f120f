// The low-level events, by interface. Seats, devices, callbacks and objects go by their numbers. Texts are borrowed bytes.
use crate::capability::DeviceCapability;
use crate::enums::{ButtonState, DeviceType, DisconnectReason, KeyState, KeymapType};
use crate::object::Object;

#[derive(Clone, Copy)]
pub enum ConnectionEvent<'a> {
    Seat {
        seat: u64,
    },
    Ping {
        ping: u64,
    },
    Disconnected {
        last_serial: u32,
        reason: DisconnectReason,
        explanation: Option<&'a [u8]>,
    },
    InvalidObject {
        last_serial: u32,
        invalid_id: u64,
    },
}

#[derive(Clone, Copy)]
pub enum CallbackEvent {
    Done { callback_data: u64 },
}

// The interface of a capability is the kind that its name gives, or none.
#[derive(Clone, Copy)]
pub enum SeatEvent<'a> {
    Name {
        name: &'a [u8],
    },
    Capability {
        mask: u64,
        interface: Option<DeviceCapability>,
    },
    Done,
    Device {
        device: u64,
    },
    Destroyed {
        serial: u32,
    },
}

// The object of an interface of no known kind is none.
#[derive(Clone, Copy)]
pub enum DeviceEvent<'a> {
    Name {
        name: &'a [u8],
    },
    DeviceType {
        device_type: DeviceType,
    },
    Dimensions {
        width: u32,
        height: u32,
    },
    Region {
        offset_x: u32,
        offset_y: u32,
        width: u32,
        height: u32,
        scale: f32,
    },
    RegionMappingId {
        mapping_id: &'a [u8],
    },
    Interface {
        object: Option<Object>,
    },
    Done,
    Resumed {
        serial: u32,
    },
    Paused {
        serial: u32,
    },
    StartEmulating {
        serial: u32,
        sequence: u32,
    },
    StopEmulating {
        serial: u32,
    },
    Frame {
        serial: u32,
        timestamp: u64,
    },
    Destroyed {
        serial: u32,
    },
}

#[derive(Clone, Copy)]
pub enum KeyboardEvent {
    Keymap {
        keymap_type: KeymapType,
        size: u32,
        keymap: u32,
    },
    Key {
        key: u32,
        state: KeyState,
    },
    Modifiers {
        serial: u32,
        depressed: u32,
        locked: u32,
        latched: u32,
        group: u32,
    },
    Destroyed {
        serial: u32,
    },
}

#[derive(Clone, Copy)]
pub enum PointerEvent {
    MotionRelative { x: f32, y: f32 },
    Destroyed { serial: u32 },
}

#[derive(Clone, Copy)]
pub enum PointerAbsoluteEvent {
    MotionAbsolute { x: f32, y: f32 },
    Destroyed { serial: u32 },
}

#[derive(Clone, Copy)]
pub enum ScrollEvent {
    Scroll { x: f32, y: f32 },
    ScrollDiscrete { x: i32, y: i32 },
    ScrollStop { x: u32, y: u32, is_cancel: u32 },
    Destroyed { serial: u32 },
}

#[derive(Clone, Copy)]
pub enum ButtonEvent {
    Button { button: u32, state: ButtonState },
    Destroyed { serial: u32 },
}

#[derive(Clone, Copy)]
pub enum TouchscreenEvent {
    Down { touchid: u32, x: f32, y: f32 },
    Motion { touchid: u32, x: f32, y: f32 },
    Up { touchid: u32 },
    Cancel { touchid: u32 },
    Destroyed { serial: u32 },
}

#[derive(Clone, Copy)]
pub enum TextEvent<'a> {
    Keysym { keysym: u32, state: KeyState },
    Utf8 { text: &'a [u8] },
    Destroyed { serial: u32 },
}

// An event as the desktop's input service sends it, with the number of the object that it is sent to.
#[derive(Clone, Copy)]
pub enum Event<'a> {
    Handshake,
    Connection(ConnectionEvent<'a>),
    Callback(u64, CallbackEvent),
    Seat(u64, SeatEvent<'a>),
    Device(u64, DeviceEvent<'a>),
    Keyboard(u64, KeyboardEvent),
    Pointer(u64, PointerEvent),
    PointerAbsolute(u64, PointerAbsoluteEvent),
    Scroll(u64, ScrollEvent),
    Button(u64, ButtonEvent),
    Touchscreen(u64, TouchscreenEvent),
    Text(u64, TextEvent<'a>),
}
