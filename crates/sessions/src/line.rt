// What is done in a session, line by line.
use ei::capability::DeviceCapability;
use ei::enums::DeviceType;
use ei::error::EventError;
use ei::object::Object;
use ei::proto::{CallbackEvent, KeyboardEvent, PointerEvent};
use host::Note;

// What a seat's server says of it. A text is the letter a, so many times.
#[derive(Clone, Copy)]
pub enum SeatCall {
    Name(u8),
    Capability(u64, Option<DeviceCapability>),
    Done,
    Device(u64),
    Destroyed(u32),
}

// What is said of a device. A region has its scale alone, and a Frame its serial and its time.
#[derive(Clone, Copy)]
pub enum DeviceCall {
    Name(u8),
    Type(DeviceType),
    Region(f32),
    MappingId(u8),
    Interface(Object),
    Done,
    Paused(u32),
    Frame(u32, u64),
    Destroyed(u32),
}

// What a converter is told, with the number of the object that it is said of.
#[derive(Clone, Copy)]
pub enum Call {
    Handshake,
    NewSeat(u64),
    Ping(u64),
    // With an explanation of so many letters.
    Disconnected(u8),
    Callback(u64, CallbackEvent),
    Seat(u64, SeatCall),
    Device(u64, DeviceCall),
    Keyboard(u64, KeyboardEvent),
    Pointer(u64, PointerEvent),
}

#[derive(Clone, Copy)]
pub enum Line {
    // A new converter with this first serial, over a new kept host.
    Start(u32),
    // Seat 101 gets handle 1, and device 201, virtual with keyboard 301, handle 2.
    Setup,
    // The kept host's reading from now on.
    Reading(u64),
    // A call is done.
    Does(Call),
    // So many calls are done.
    Repeats(u32, Call),
    // A call is refused with this error.
    Refuses(Call, EventError),
    // A ticket for a callback, and the answer.
    AddCallback(u64, u32, Result<(), EventError>),
    // A seat's handle, a set of seven bits, and the answer. The set is in bits, since a static has no call that makes a set.
    Bind(u32, u8, Result<(), EventError>),
    // The next event's kind, handle and time as they are printed: the kind by its number, and 0 for no handle or no time.
    Next(u8, u32, u64),
    // No event is queued.
    NoNext,
    // The oldest note that waits at the host.
    Take(Option<Note>),
    // The serial is this one.
    Serial(u32),
}
