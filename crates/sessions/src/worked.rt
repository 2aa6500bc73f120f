// The worked sessions, one after the other. Each begins with a new converter.
ghost use Rattle.std.specs.Prelude.{◌≡◌};
ghost use Rattle.sessions.specs.Worked.{worked, WorkedSessions};

use crate::line::{Call, DeviceCall, Line, SeatCall};
use crate::samples::{PRESS_30, PRESS_31, RELEASE_30, SECOND_KEYBOARD};
use ei::capability::DeviceCapability;
use ei::enums::DeviceType;
use ei::error::EventError;
use ei::proto::{KeyboardEvent, PointerEvent};
use host::Note;

static WORKED: [Line; 95] = [
    // A Frame with nothing pending is accepted, queues nothing and sets the serial.
    Line::Start(5),
    Line::Setup,
    Line::Does(Call::Device(201, DeviceCall::Frame(9, 1000))),
    Line::Next(2, 1, 0),
    Line::Next(4, 2, 0),
    Line::NoNext,
    Line::Serial(9),
    // Paused of an unknown device is refused and sets the serial.
    Line::Start(5),
    Line::Refuses(
        Call::Device(201, DeviceCall::Paused(7)),
        EventError::DeviceEventBeforeDone,
    ),
    Line::NoNext,
    Line::Serial(7),
    // Destroyed of an unowned pointer is refused and leaves the serial; of a keyboard it is accepted and sets it.
    Line::Start(5),
    Line::Refuses(
        Call::Pointer(401, PointerEvent::Destroyed { serial: 7 }),
        EventError::DeviceEventBeforeDone,
    ),
    Line::Serial(5),
    Line::Start(5),
    Line::Does(Call::Keyboard(301, KeyboardEvent::Destroyed { serial: 7 })),
    Line::Serial(7),
    // A device done without a type is gone, and a name after it is refused.
    Line::Start(5),
    Line::Does(Call::NewSeat(101)),
    Line::Does(Call::Seat(101, SeatCall::Done)),
    Line::Does(Call::Seat(101, SeatCall::Device(201))),
    Line::Refuses(
        Call::Device(201, DeviceCall::Done),
        EventError::NoDeviceType,
    ),
    Line::Refuses(
        Call::Device(201, DeviceCall::Name(4)),
        EventError::DeviceSetupEventAfterDone,
    ),
    Line::Next(2, 1, 0),
    Line::NoNext,
    Line::Serial(5),
    // A name of 128 bytes is accepted, of 129 refused.
    Line::Start(5),
    Line::Does(Call::NewSeat(101)),
    Line::Does(Call::Seat(101, SeatCall::Name(128))),
    Line::Refuses(Call::Seat(101, SeatCall::Name(129)), EventError::LongText),
    Line::Serial(5),
    // At 253 held a timed event is accepted, at 254 refused.
    Line::Start(5),
    Line::Setup,
    Line::Repeats(251, Call::Keyboard(301, PRESS_30)),
    Line::Does(Call::Keyboard(301, RELEASE_30)),
    Line::Refuses(Call::Keyboard(301, PRESS_31), EventError::StoreFull),
    Line::Serial(5),
    // A Frame with pending events is accepted at 255 held.
    Line::Start(5),
    Line::Setup,
    Line::Repeats(252, Call::Keyboard(301, PRESS_30)),
    Line::Does(Call::NewSeat(102)),
    Line::Does(Call::Seat(102, SeatCall::Done)),
    Line::Does(Call::Device(201, DeviceCall::Frame(9, 1000))),
    Line::Serial(9),
    // And refused at 256.
    Line::Start(5),
    Line::Setup,
    Line::Repeats(252, Call::Keyboard(301, PRESS_30)),
    Line::Does(Call::NewSeat(102)),
    Line::Does(Call::Seat(102, SeatCall::Done)),
    Line::Does(Call::NewSeat(103)),
    Line::Does(Call::Seat(103, SeatCall::Done)),
    Line::Refuses(
        Call::Device(201, DeviceCall::Frame(9, 1000)),
        EventError::StoreFull,
    ),
    Line::Serial(5),
    // Masks 4 and 6 bound together send 6, and the empty set sends 0.
    Line::Start(5),
    Line::Does(Call::NewSeat(101)),
    Line::Does(Call::Seat(
        101,
        SeatCall::Capability(4, Some(DeviceCapability::Keyboard)),
    )),
    Line::Does(Call::Seat(
        101,
        SeatCall::Capability(6, Some(DeviceCapability::Pointer)),
    )),
    Line::Does(Call::Seat(101, SeatCall::Done)),
    Line::Bind(1, 5, Ok(())),
    Line::Take(Some(Note::Bind { seat: 101, mask: 6 })),
    Line::Bind(1, 0, Ok(())),
    Line::Take(Some(Note::Bind { seat: 101, mask: 0 })),
    Line::Take(None),
    Line::Serial(5),
    // Device 201 is done twice: a key of its first keyboard stays pending past its Frame.
    Line::Start(5),
    Line::Setup,
    Line::Does(Call::Seat(101, SeatCall::Device(201))),
    Line::Does(Call::Device(201, DeviceCall::Type(DeviceType::Virtual))),
    Line::Does(Call::Device(201, DeviceCall::Interface(SECOND_KEYBOARD))),
    Line::Does(Call::Device(201, DeviceCall::Done)),
    Line::Does(Call::Keyboard(301, PRESS_30)),
    Line::Does(Call::Device(201, DeviceCall::Frame(9, 1000))),
    Line::Next(2, 1, 0),
    Line::Next(4, 2, 0),
    Line::Next(4, 3, 0),
    Line::NoNext,
    Line::Serial(9),
    // Keys, a Frame, a key, and Paused, which forces a Frame.
    Line::Start(5),
    Line::Setup,
    Line::Does(Call::Keyboard(301, PRESS_30)),
    Line::Does(Call::Keyboard(301, RELEASE_30)),
    Line::Does(Call::Device(201, DeviceCall::Frame(9, 1000))),
    Line::Does(Call::Keyboard(301, PRESS_31)),
    Line::Reading(1500),
    Line::Does(Call::Device(201, DeviceCall::Paused(10))),
    Line::Next(2, 1, 0),
    Line::Next(4, 2, 0),
    Line::Next(19, 2, 1000),
    Line::Next(19, 2, 1000),
    Line::Next(9, 2, 1000),
    Line::Next(19, 2, 1500),
    Line::Next(9, 2, 1500),
    Line::Next(6, 2, 0),
    Line::NoNext,
    Line::Serial(10),
];

pub fn worked_sessions() -> &'static [Line]
    ensures { result.now ≡ worked }
{
    &WORKED
}

// The model of the converter gives what each line expects.
pub fn worked_sessions_hold()
    ensures { WorkedSessions }
{}
