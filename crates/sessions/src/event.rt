// What is said in a session, as the converter takes it.
ghost use Rattle.std.specs.Prelude.{◌≡◌};
ghost use Rattle.tables.specs.Told.{told};
ghost use Rattle.sessions.specs.Calls.{letters as text_of_letters, said_of_seat, said_of_device, call_of};

use crate::line::{Call, DeviceCall, SeatCall};
use ei::enums::DisconnectReason;
use ei::proto::{ConnectionEvent, DeviceEvent, Event, SeatEvent};

static LETTERS: [u8; 256] = [b'a'; 256];

// A text of so many letters.
fn letters(count: u8) -> &'static [u8]
    ensures { result.now ≡ text_of_letters count }
{
    &LETTERS[..usize::from(count)]
}

fn seat_event(number: u64, call: SeatCall) -> Event<'static>
    ensures { told result ≡ said_of_seat number call }
{
    let event = match call {
        SeatCall::Name(count) => SeatEvent::Name {
            name: letters(count),
        },
        SeatCall::Capability(mask, interface) => SeatEvent::Capability { mask, interface },
        SeatCall::Done => SeatEvent::Done,
        SeatCall::Device(device) => SeatEvent::Device { device },
        SeatCall::Destroyed(serial) => SeatEvent::Destroyed { serial },
    };
    Event::Seat(number, event)
}

fn device_event(number: u64, call: DeviceCall) -> Event<'static>
    ensures { told result ≡ said_of_device number call }
{
    let event = match call {
        DeviceCall::Name(count) => DeviceEvent::Name {
            name: letters(count),
        },
        DeviceCall::Type(device_type) => DeviceEvent::DeviceType { device_type },
        DeviceCall::Region(scale) => DeviceEvent::Region {
            offset_x: 0,
            offset_y: 0,
            width: 640,
            height: 480,
            scale,
        },
        DeviceCall::MappingId(count) => DeviceEvent::RegionMappingId {
            mapping_id: letters(count),
        },
        DeviceCall::Interface(object) => DeviceEvent::Interface {
            object: Some(object),
        },
        DeviceCall::Done => DeviceEvent::Done,
        DeviceCall::Paused(serial) => DeviceEvent::Paused { serial },
        DeviceCall::Frame(serial, timestamp) => DeviceEvent::Frame { serial, timestamp },
        DeviceCall::Destroyed(serial) => DeviceEvent::Destroyed { serial },
    };
    Event::Device(number, event)
}

// The event that a call tells.
pub fn event(call: Call) -> Event<'static>
    ensures { told result ≡ call_of call }
{
    match call {
        Call::Handshake => Event::Handshake,
        Call::NewSeat(seat) => Event::Connection(ConnectionEvent::Seat { seat }),
        Call::Ping(ping) => Event::Connection(ConnectionEvent::Ping { ping }),
        Call::Disconnected(count) => Event::Connection(ConnectionEvent::Disconnected {
            last_serial: 5,
            reason: DisconnectReason::Disconnected,
            explanation: Some(letters(count)),
        }),
        Call::Callback(number, event) => Event::Callback(number, event),
        Call::Seat(number, seat) => seat_event(number, seat),
        Call::Device(number, device) => device_event(number, device),
        Call::Keyboard(number, event) => Event::Keyboard(number, event),
        Call::Pointer(number, event) => Event::Pointer(number, event),
    }
}
