ghost use Rattle.std.specs.Prelude.{◌≡◌};
ghost use Rattle.ei.specs.Events.{kind_of, timed, device_of, handle_of, time_of, at_time};

use crate::event::{
    Button, DeviceAdded, DevicePaused, DeviceRemoved, DeviceResumed, DeviceStartEmulating,
    DeviceStopEmulating, EiEvent, Frame, KeyboardKey, KeyboardModifiers, PointerMotion,
    PointerMotionAbsolute, ScrollCancel, ScrollDelta, ScrollDiscrete, ScrollStop, SeatAdded,
    SeatRemoved, TextKeysym, TextUtf8, TouchCancel, TouchDown, TouchMotion, TouchUp,
};

impl EiEvent {
    // The number of the event's kind, from 1 to 25: the rules number the kinds and a line prints the number, and a second enum of the
    // cases would be turned back to it.
    pub fn kind(&self) -> u8
        ensures { result ≡ kind_of self.now }
    {
        match self {
            EiEvent::Disconnected(_) => 1,
            EiEvent::SeatAdded(_) => 2,
            EiEvent::SeatRemoved(_) => 3,
            EiEvent::DeviceAdded(_) => 4,
            EiEvent::DeviceRemoved(_) => 5,
            EiEvent::DevicePaused(_) => 6,
            EiEvent::DeviceResumed(_) => 7,
            EiEvent::KeyboardModifiers(_) => 8,
            EiEvent::Frame(_) => 9,
            EiEvent::DeviceStartEmulating(_) => 10,
            EiEvent::DeviceStopEmulating(_) => 11,
            EiEvent::PointerMotion(_) => 12,
            EiEvent::PointerMotionAbsolute(_) => 13,
            EiEvent::Button(_) => 14,
            EiEvent::ScrollDelta(_) => 15,
            EiEvent::ScrollStop(_) => 16,
            EiEvent::ScrollCancel(_) => 17,
            EiEvent::ScrollDiscrete(_) => 18,
            EiEvent::KeyboardKey(_) => 19,
            EiEvent::TouchDown(_) => 20,
            EiEvent::TouchUp(_) => 21,
            EiEvent::TouchMotion(_) => 22,
            EiEvent::TouchCancel(_) => 23,
            EiEvent::TextKeysym(_) => 24,
            EiEvent::TextUtf8(_) => 25,
        }
    }

    // Whether the event waits for its device's frame: by the rules, from kind 12 on.
    pub fn is_timed(&self) -> bool
        ensures { result ≡ timed self.now }
    {
        self.kind() >= 12
    }

    // The handle of the device whose event it is.
    pub fn device(&self) -> Option<u32>
        ensures { result ≡ device_of self.now }
    {
        match self {
            EiEvent::Disconnected(_) | EiEvent::SeatAdded(_) | EiEvent::SeatRemoved(_) => None,
            EiEvent::DeviceAdded(DeviceAdded { device })
            | EiEvent::DeviceRemoved(DeviceRemoved { device })
            | EiEvent::DevicePaused(DevicePaused { device, .. })
            | EiEvent::DeviceResumed(DeviceResumed { device, .. })
            | EiEvent::KeyboardModifiers(KeyboardModifiers { device, .. })
            | EiEvent::Frame(Frame { device, .. })
            | EiEvent::DeviceStartEmulating(DeviceStartEmulating { device, .. })
            | EiEvent::DeviceStopEmulating(DeviceStopEmulating { device, .. })
            | EiEvent::PointerMotion(PointerMotion { device, .. })
            | EiEvent::PointerMotionAbsolute(PointerMotionAbsolute { device, .. })
            | EiEvent::Button(Button { device, .. })
            | EiEvent::ScrollDelta(ScrollDelta { device, .. })
            | EiEvent::ScrollStop(ScrollStop { device, .. })
            | EiEvent::ScrollCancel(ScrollCancel { device, .. })
            | EiEvent::ScrollDiscrete(ScrollDiscrete { device, .. })
            | EiEvent::KeyboardKey(KeyboardKey { device, .. })
            | EiEvent::TouchDown(TouchDown { device, .. })
            | EiEvent::TouchUp(TouchUp { device, .. })
            | EiEvent::TouchMotion(TouchMotion { device, .. })
            | EiEvent::TouchCancel(TouchCancel { device, .. })
            | EiEvent::TextKeysym(TextKeysym { device, .. })
            | EiEvent::TextUtf8(TextUtf8 { device, .. }) => Some(*device),
        }
    }

    // The handle of the seat or the device that the event names; 0 for none, as the rules and the lines of the output have it.
    pub fn handle(&self) -> u32
        ensures { result ≡ handle_of self.now }
    {
        match self {
            EiEvent::SeatAdded(SeatAdded { seat }) | EiEvent::SeatRemoved(SeatRemoved { seat }) =>
                *seat,
            _ => self.device().unwrap_or(0),
        }
    }

    // The event's time in microseconds; 0 where it has none, as the rules and the lines of the output have it.
    pub fn time(&self) -> u64
        ensures { result ≡ time_of self.now }
    {
        match self {
            EiEvent::Frame(Frame { time, .. })
            | EiEvent::PointerMotion(PointerMotion { time, .. })
            | EiEvent::PointerMotionAbsolute(PointerMotionAbsolute { time, .. })
            | EiEvent::Button(Button { time, .. })
            | EiEvent::ScrollDelta(ScrollDelta { time, .. })
            | EiEvent::ScrollStop(ScrollStop { time, .. })
            | EiEvent::ScrollCancel(ScrollCancel { time, .. })
            | EiEvent::ScrollDiscrete(ScrollDiscrete { time, .. })
            | EiEvent::KeyboardKey(KeyboardKey { time, .. })
            | EiEvent::TouchDown(TouchDown { time, .. })
            | EiEvent::TouchUp(TouchUp { time, .. })
            | EiEvent::TouchMotion(TouchMotion { time, .. })
            | EiEvent::TouchCancel(TouchCancel { time, .. })
            | EiEvent::TextKeysym(TextKeysym { time, .. })
            | EiEvent::TextUtf8(TextUtf8 { time, .. }) => *time,
            _ => 0,
        }
    }

    // A timed event at another time; any other as it is.
    pub fn at_time(self, time: u64) -> EiEvent
        ensures { result ≡ at_time time self }
    {
        match self {
            EiEvent::PointerMotion(event) => EiEvent::PointerMotion(PointerMotion {
                time,
                ..event
            }),
            EiEvent::PointerMotionAbsolute(event) => EiEvent::PointerMotionAbsolute(
                PointerMotionAbsolute { time, ..event },
            ),
            EiEvent::Button(event) => EiEvent::Button(Button { time, ..event }),
            EiEvent::ScrollDelta(event) => EiEvent::ScrollDelta(ScrollDelta { time, ..event }),
            EiEvent::ScrollStop(event) => EiEvent::ScrollStop(ScrollStop { time, ..event }),
            EiEvent::ScrollCancel(event) => EiEvent::ScrollCancel(ScrollCancel { time, ..event }),
            EiEvent::ScrollDiscrete(event) => EiEvent::ScrollDiscrete(ScrollDiscrete {
                time,
                ..event
            }),
            EiEvent::KeyboardKey(event) => EiEvent::KeyboardKey(KeyboardKey { time, ..event }),
            EiEvent::TouchDown(event) => EiEvent::TouchDown(TouchDown { time, ..event }),
            EiEvent::TouchUp(event) => EiEvent::TouchUp(TouchUp { time, ..event }),
            EiEvent::TouchMotion(event) => EiEvent::TouchMotion(TouchMotion { time, ..event }),
            EiEvent::TouchCancel(event) => EiEvent::TouchCancel(TouchCancel { time, ..event }),
            EiEvent::TextKeysym(event) => EiEvent::TextKeysym(TextKeysym { time, ..event }),
            EiEvent::TextUtf8(event) => EiEvent::TextUtf8(TextUtf8 { time, ..event }),
            untimed => untimed,
        }
    }
}
