// What the converter hands out: twenty-five kinds of event, a struct each. A seat or a device goes by its handle.
use crate::enums::{ButtonState, DisconnectReason, KeyState};
use crate::text::Text;

mod tells;

// The server ended the connection.
#[derive(Clone, Copy)]
pub struct Disconnected {
    pub last_serial: u32,
    pub reason: DisconnectReason,
    pub explanation: Option<Text>,
}

// A seat is set up.
#[derive(Clone, Copy)]
pub struct SeatAdded {
    pub seat: u32,
}

// A seat is gone.
#[derive(Clone, Copy)]
pub struct SeatRemoved {
    pub seat: u32,
}

// A device is set up.
#[derive(Clone, Copy)]
pub struct DeviceAdded {
    pub device: u32,
}

// A device is gone.
#[derive(Clone, Copy)]
pub struct DeviceRemoved {
    pub device: u32,
}

// A device sends no more events until it is resumed.
#[derive(Clone, Copy)]
pub struct DevicePaused {
    pub device: u32,
    pub serial: u32,
}

// A device may send events.
#[derive(Clone, Copy)]
pub struct DeviceResumed {
    pub device: u32,
    pub serial: u32,
}

// The modifiers and the group of a keyboard.
#[derive(Clone, Copy)]
pub struct KeyboardModifiers {
    pub device: u32,
    pub serial: u32,
    pub depressed: u32,
    pub latched: u32,
    pub locked: u32,
    pub group: u32,
}

// The end of a group of timed events of one device.
#[derive(Clone, Copy)]
pub struct Frame {
    pub device: u32,
    pub serial: u32,
    pub time: u64,
}

// A device begins a sequence of events.
#[derive(Clone, Copy)]
pub struct DeviceStartEmulating {
    pub device: u32,
    pub serial: u32,
    pub sequence: u32,
}

// A device ends its sequence of events.
#[derive(Clone, Copy)]
pub struct DeviceStopEmulating {
    pub device: u32,
    pub serial: u32,
}

// A pointer moved by so much.
#[derive(Clone, Copy)]
pub struct PointerMotion {
    pub device: u32,
    pub time: u64,
    pub dx: f32,
    pub dy: f32,
}

// A pointer moved to a place.
#[derive(Clone, Copy)]
pub struct PointerMotionAbsolute {
    pub device: u32,
    pub time: u64,
    pub dx_absolute: f32,
    pub dy_absolute: f32,
}

// A button was pressed or released.
#[derive(Clone, Copy)]
pub struct Button {
    pub device: u32,
    pub time: u64,
    pub button: u32,
    pub state: ButtonState,
}

// A scroll by so much.
#[derive(Clone, Copy)]
pub struct ScrollDelta {
    pub device: u32,
    pub time: u64,
    pub dx: f32,
    pub dy: f32,
}

// Scrolling stopped, by axis.
#[derive(Clone, Copy)]
pub struct ScrollStop {
    pub device: u32,
    pub time: u64,
    pub x: bool,
    pub y: bool,
}

// Scrolling was cancelled, by axis.
#[derive(Clone, Copy)]
pub struct ScrollCancel {
    pub device: u32,
    pub time: u64,
    pub x: bool,
    pub y: bool,
}

// A scroll by steps, 120 to a step.
#[derive(Clone, Copy)]
pub struct ScrollDiscrete {
    pub device: u32,
    pub time: u64,
    pub discrete_dx: i32,
    pub discrete_dy: i32,
}

// A key was pressed or released.
#[derive(Clone, Copy)]
pub struct KeyboardKey {
    pub device: u32,
    pub time: u64,
    pub key: u32,
    pub state: KeyState,
}

// A touch began.
#[derive(Clone, Copy)]
pub struct TouchDown {
    pub device: u32,
    pub time: u64,
    pub touch_id: u32,
    pub x: f32,
    pub y: f32,
}

// A touch ended.
#[derive(Clone, Copy)]
pub struct TouchUp {
    pub device: u32,
    pub time: u64,
    pub touch_id: u32,
}

// A touch moved.
#[derive(Clone, Copy)]
pub struct TouchMotion {
    pub device: u32,
    pub time: u64,
    pub touch_id: u32,
    pub x: f32,
    pub y: f32,
}

// A touch was cancelled.
#[derive(Clone, Copy)]
pub struct TouchCancel {
    pub device: u32,
    pub time: u64,
    pub touch_id: u32,
}

// A key symbol was pressed or released.
#[derive(Clone, Copy)]
pub struct TextKeysym {
    pub device: u32,
    pub time: u64,
    pub keysym: u32,
    pub state: KeyState,
}

// A text was entered.
#[derive(Clone, Copy)]
pub struct TextUtf8 {
    pub device: u32,
    pub time: u64,
    pub text: Text,
}

// An event, in the order of the kinds' numbers from 1 to 25.
#[derive(Clone, Copy)]
pub enum EiEvent {
    Disconnected(Disconnected),
    SeatAdded(SeatAdded),
    SeatRemoved(SeatRemoved),
    DeviceAdded(DeviceAdded),
    DeviceRemoved(DeviceRemoved),
    DevicePaused(DevicePaused),
    DeviceResumed(DeviceResumed),
    KeyboardModifiers(KeyboardModifiers),
    Frame(Frame),
    DeviceStartEmulating(DeviceStartEmulating),
    DeviceStopEmulating(DeviceStopEmulating),
    PointerMotion(PointerMotion),
    PointerMotionAbsolute(PointerMotionAbsolute),
    Button(Button),
    ScrollDelta(ScrollDelta),
    ScrollStop(ScrollStop),
    ScrollCancel(ScrollCancel),
    ScrollDiscrete(ScrollDiscrete),
    KeyboardKey(KeyboardKey),
    TouchDown(TouchDown),
    TouchUp(TouchUp),
    TouchMotion(TouchMotion),
    TouchCancel(TouchCancel),
    TextKeysym(TextKeysym),
    TextUtf8(TextUtf8),
}
