// Each refusal, and what it leaves; full stores, tables and regions stand with the limits, used up and busy handles with retiring.
use crate::line::{Call, DeviceCall, Line, SeatCall};
use crate::samples::{DONE, KEYBOARD, KEYMAP, MODIFIERS_11, PRESS_30};
use crate::tests::play::{Player, play};
use ei::enums::DeviceType;
use ei::error::EventError;
use ei::proto::{KeyboardEvent, PointerEvent};
use host::Note;
use std::test::Fail;

// A serial-first event sets the serial, and a key or a pointer's Destroyed does not.
#[test]
fn device_event_before_done(rt: HostRuntime) -> Result<(), Fail> {
    play(
        &rt,
        &[
            Line::Refuses(
                Call::Device(201, DeviceCall::Paused(7)),
                EventError::DeviceEventBeforeDone,
            ),
            Line::Serial(7),
            Line::Refuses(
                Call::Device(201, DeviceCall::Frame(8, 1000)),
                EventError::DeviceEventBeforeDone,
            ),
            Line::Serial(8),
            Line::Refuses(
                Call::Keyboard(301, MODIFIERS_11),
                EventError::DeviceEventBeforeDone,
            ),
            Line::Serial(11),
            Line::Refuses(
                Call::Keyboard(301, PRESS_30),
                EventError::DeviceEventBeforeDone,
            ),
            Line::Refuses(
                Call::Pointer(401, PointerEvent::Destroyed { serial: 12 }),
                EventError::DeviceEventBeforeDone,
            ),
            Line::Serial(11),
            Line::Does(Call::Keyboard(301, KeyboardEvent::Destroyed { serial: 12 })),
            Line::Serial(12),
            Line::Does(Call::Device(201, DeviceCall::Destroyed(13))),
            Line::Serial(13),
            Line::Does(Call::Seat(101, SeatCall::Destroyed(14))),
            Line::Serial(14),
            Line::NoNext,
        ],
    )
}

// What is said of a device that is set up, or that never was.
#[test]
fn device_setup_event_after_done(rt: HostRuntime) -> Result<(), Fail> {
    play(
        &rt,
        &[
            Line::Setup,
            Line::Refuses(
                Call::Device(201, DeviceCall::Name(1)),
                EventError::DeviceSetupEventAfterDone,
            ),
            Line::Refuses(
                Call::Device(201, DeviceCall::Type(DeviceType::Physical)),
                EventError::DeviceSetupEventAfterDone,
            ),
            Line::Refuses(
                Call::Device(201, DeviceCall::Region(1.0)),
                EventError::DeviceSetupEventAfterDone,
            ),
            Line::Refuses(
                Call::Device(201, DeviceCall::MappingId(129)),
                EventError::DeviceSetupEventAfterDone,
            ),
            Line::Refuses(
                Call::Device(202, DeviceCall::Interface(KEYBOARD)),
                EventError::DeviceSetupEventAfterDone,
            ),
            Line::Refuses(
                Call::Device(201, DeviceCall::Done),
                EventError::DeviceSetupEventAfterDone,
            ),
            Line::Refuses(
                Call::Keyboard(301, KEYMAP),
                EventError::DeviceSetupEventAfterDone,
            ),
            Line::Serial(5),
            Line::Does(Call::Keyboard(301, PRESS_30)),
            Line::Next(2, 1, 0),
            Line::Next(4, 2, 0),
            Line::NoNext,
        ],
    )
}

// The faults of a seat, and SeatSetupEventAfterDone before a wrong interface and a long text: nothing has changed.
#[test]
fn faults_of_seats(rt: HostRuntime) -> Result<(), Fail> {
    play(
        &rt,
        &[
            Line::Refuses(
                Call::Seat(101, SeatCall::Name(129)),
                EventError::SeatSetupEventAfterDone,
            ),
            Line::Refuses(
                Call::Seat(101, SeatCall::Capability(1, None)),
                EventError::SeatSetupEventAfterDone,
            ),
            Line::Refuses(
                Call::Seat(101, SeatCall::Done),
                EventError::SeatSetupEventAfterDone,
            ),
            Line::Refuses(
                Call::Seat(101, SeatCall::Device(201)),
                EventError::SeatEventBeforeDone,
            ),
            Line::Refuses(Call::Handshake, EventError::UnexpectedHandshakeEvent),
            Line::Does(Call::NewSeat(101)),
            Line::Refuses(
                Call::Seat(101, SeatCall::Device(201)),
                EventError::SeatEventBeforeDone,
            ),
            Line::Refuses(
                Call::Seat(101, SeatCall::Capability(1, None)),
                EventError::UnknownCapabilityInterface,
            ),
            Line::Does(Call::Seat(101, SeatCall::Done)),
            Line::Refuses(
                Call::Seat(101, SeatCall::Done),
                EventError::SeatSetupEventAfterDone,
            ),
            Line::Does(Call::Seat(101, SeatCall::Device(201))),
            Line::Serial(5),
            Line::Next(2, 1, 0),
            Line::NoNext,
        ],
    )
}

// The pending device is gone.
#[test]
fn no_device_type(rt: HostRuntime) -> Result<(), Fail> {
    play(
        &rt,
        &[
            Line::Does(Call::NewSeat(101)),
            Line::Does(Call::Seat(101, SeatCall::Done)),
            Line::Does(Call::Seat(101, SeatCall::Device(201))),
            Line::Refuses(
                Call::Device(201, DeviceCall::Done),
                EventError::NoDeviceType,
            ),
            Line::Refuses(
                Call::Device(201, DeviceCall::Done),
                EventError::DeviceSetupEventAfterDone,
            ),
            Line::Does(Call::Seat(101, SeatCall::Device(201))),
            Line::Does(Call::Device(201, DeviceCall::Type(DeviceType::Physical))),
            Line::Does(Call::Device(201, DeviceCall::Done)),
            Line::Next(2, 1, 0),
            Line::Next(4, 2, 0),
            Line::NoNext,
            Line::Serial(5),
        ],
    )
}

// Texts of 128 bytes are kept, of 129 refused.
#[test]
fn long_text(rt: HostRuntime) -> Result<(), Fail> {
    play(
        &rt,
        &[
            Line::Does(Call::NewSeat(101)),
            Line::Does(Call::Seat(101, SeatCall::Name(128))),
            Line::Refuses(Call::Seat(101, SeatCall::Name(129)), EventError::LongText),
            Line::Does(Call::Seat(101, SeatCall::Done)),
            Line::Does(Call::Seat(101, SeatCall::Device(201))),
            Line::Does(Call::Device(201, DeviceCall::Name(128))),
            Line::Refuses(
                Call::Device(201, DeviceCall::Name(129)),
                EventError::LongText,
            ),
            Line::Does(Call::Device(201, DeviceCall::MappingId(128))),
            Line::Refuses(
                Call::Device(201, DeviceCall::MappingId(129)),
                EventError::LongText,
            ),
            Line::Refuses(Call::Disconnected(129), EventError::LongText),
            Line::Next(2, 1, 0),
            Line::NoNext,
            Line::Does(Call::Disconnected(128)),
            Line::Next(1, 0, 0),
            Line::Serial(5),
        ],
    )
}

// After a long one the former name stands.
#[test]
fn long_name_is_not_kept(rt: HostRuntime) -> Result<(), Fail> {
    let mut player = Player::new(&rt, 5)?;
    player.play(&[
        Line::Does(Call::NewSeat(101)),
        Line::Does(Call::Seat(101, SeatCall::Name(128))),
        Line::Refuses(Call::Seat(101, SeatCall::Name(129)), EventError::LongText),
        Line::Does(Call::Seat(101, SeatCall::Done)),
    ])?;
    let name = player.converter.seat_name(1)?;
    assert_eq!(rt; name.map(|text| text.as_bytes().len()), Some(128));
    Ok(())
}

// The host is asked for nothing, and a known callback is run later.
#[test]
fn host_full(rt: HostRuntime) -> Result<(), Fail> {
    play(
        &rt,
        &[
            Line::Setup,
            Line::AddCallback(900, 77, Ok(())),
            Line::Repeats(64, Call::Ping(6)),
            Line::Refuses(Call::Ping(6), EventError::HostFull),
            Line::Refuses(Call::Callback(900, DONE), EventError::HostFull),
            Line::Does(Call::Callback(901, DONE)),
            Line::Bind(1, 4, Err(EventError::HostFull)),
            Line::Bind(2, 4, Err(EventError::NoSuchHandle)),
            Line::Take(Some(Note::Pong { ping: 6, data: 0 })),
            Line::Does(Call::Callback(900, DONE)),
            Line::Does(Call::Callback(900, DONE)),
            Line::Bind(1, 4, Err(EventError::HostFull)),
            Line::Serial(5),
        ],
    )
}

// A handle never given, and one given to a device.
#[test]
fn no_such_handle(rt: HostRuntime) -> Result<(), Fail> {
    play(
        &rt,
        &[
            Line::Bind(1, 0, Err(EventError::NoSuchHandle)),
            Line::Setup,
            Line::Bind(2, 0, Err(EventError::NoSuchHandle)),
            Line::Bind(0, 0, Err(EventError::NoSuchHandle)),
            Line::Take(None),
            Line::Bind(1, 0, Ok(())),
            Line::Does(Call::Seat(101, SeatCall::Destroyed(6))),
            Line::Bind(1, 0, Ok(())),
            Line::Take(Some(Note::Bind { seat: 101, mask: 0 })),
            Line::Take(Some(Note::Bind { seat: 101, mask: 0 })),
            Line::Take(None),
        ],
    )
}

// The refusals are known by their numbers, from 1 to 15.
#[test]
fn refusals_have_numbers(rt: HostRuntime) -> Result<(), Fail> {
    let refusals = [
        EventError::DeviceEventBeforeDone,
        EventError::DeviceSetupEventAfterDone,
        EventError::SeatSetupEventAfterDone,
        EventError::SeatEventBeforeDone,
        EventError::NoDeviceType,
        EventError::UnexpectedHandshakeEvent,
        EventError::UnknownCapabilityInterface,
        EventError::LongText,
        EventError::StoreFull,
        EventError::TableFull,
        EventError::HandlesUsedUp,
        EventError::HostFull,
        EventError::NoSuchHandle,
        EventError::HandleBusy,
        EventError::RegionsFull,
    ];
    for (refusal, number) in refusals.iter().zip(1..=15u8) {
        assert_eq!(rt; refusal.number(), number);
    }
    Ok(())
}
