ghost use Rattle.std.specs.Prelude.{◌≡◌, if◌then◌else◌, true, Ok, Err, OnOk};
ghost use Rattle.ei.specs.Refusals.{number_of};

use std::fmt;

// Why a call is refused, with its number. The first seven are faults of the server, the others want of room or a wrong handle.
#[derive(Clone, Copy, PartialEq, Eq, Debug)]
pub enum EventError {
    DeviceEventBeforeDone = 1,
    DeviceSetupEventAfterDone = 2,
    SeatSetupEventAfterDone = 3,
    SeatEventBeforeDone = 4,
    NoDeviceType = 5,
    UnexpectedHandshakeEvent = 6,
    UnknownCapabilityInterface = 7,
    LongText = 8,
    StoreFull = 9,
    TableFull = 10,
    HandlesUsedUp = 11,
    HostFull = 12,
    NoSuchHandle = 13,
    HandleBusy = 14,
    RegionsFull = 15,
}

impl EventError {
    // The number of the refusal, from 1 to 15. A method, since the rules and the lines of output call it so.
    pub fn number(self) -> u8
        ensures { result ≡ number_of self }
    {
        self as u8
    }

    // Refuses so where what is needed is not met.
    pub fn unless(self, met: bool) -> Result<(), EventError>
        ensures answer { result ≡ (if met then Ok tt else Err self) }
        ensures ok { OnOk result (met ≡ true) }
    {
        met.then_some(()).ok_or(self)
    }
}

// Written out: a derive would put a library under the crate that stands on none.
impl fmt::Display for EventError {
    fn fmt<W: fmt::Write>(&self, f: &mut fmt::Formatter<W>) -> fmt::Result {
        let message = match self {
            EventError::DeviceEventBeforeDone => "device event before done",
            EventError::DeviceSetupEventAfterDone => "device setup event after done",
            EventError::SeatSetupEventAfterDone => "seat setup event after done",
            EventError::SeatEventBeforeDone => "seat event before done",
            EventError::NoDeviceType => "device done without a type",
            EventError::UnexpectedHandshakeEvent => "unexpected handshake event",
            EventError::UnknownCapabilityInterface => "unknown interface in ei_seat.capability",
            EventError::LongText => "text of more than 128 bytes",
            EventError::StoreFull => "event store full",
            EventError::TableFull => "table full",
            EventError::HandlesUsedUp => "handles used up",
            EventError::HostFull => "host full",
            EventError::NoSuchHandle => "no such handle",
            EventError::HandleBusy => "handle busy",
            EventError::RegionsFull => "device has eight regions already",
        };
        write!(f, "{message}")
    }
}
