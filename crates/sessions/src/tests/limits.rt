// What is accepted just below a limit, and refused at it.
use crate::line::{Call, DeviceCall, Line, SeatCall};
use crate::samples::{MODIFIERS_11, PRESS_30};
use crate::tests::play::{Player, play};
use ei::capability::DeviceCapability;
use ei::enums::DeviceType;
use ei::error::EventError;
use ei::proto::KeyboardEvent;
use host::Note;
use std::test::Fail;

const KEY: Call = Call::Keyboard(301, PRESS_30);

// The eighth region is accepted, and the ninth refused.
#[test]
fn eight_regions(rt: HostRuntime) -> Result<(), Fail> {
    play(
        &rt,
        &[
            Line::Does(Call::NewSeat(101)),
            Line::Does(Call::Seat(101, SeatCall::Done)),
            Line::Does(Call::Seat(101, SeatCall::Device(201))),
            Line::Repeats(8, Call::Device(201, DeviceCall::Region(1.0))),
            Line::Refuses(
                Call::Device(201, DeviceCall::Region(1.0)),
                EventError::RegionsFull,
            ),
            Line::Does(Call::Device(201, DeviceCall::Type(DeviceType::Virtual))),
            Line::Does(Call::Device(201, DeviceCall::Done)),
            Line::Serial(5),
        ],
    )
}

// A timed event leaves two places: at 253 held it is accepted, at 254 refused.
#[test]
fn timed_event_at_254(rt: HostRuntime) -> Result<(), Fail> {
    play(
        &rt,
        &[
            Line::Setup,
            Line::Repeats(251, KEY),
            Line::Does(KEY),
            Line::Refuses(KEY, EventError::StoreFull),
            Line::Reading(700),
            Line::Does(Call::Device(201, DeviceCall::Paused(6))),
            Line::Serial(6),
            Line::Refuses(KEY, EventError::StoreFull),
            Line::Next(2, 1, 0),
            Line::Next(4, 2, 0),
            Line::Next(19, 2, 700),
        ],
    )
}

// At 255 held a Frame with pending events is accepted, and one that forces a Frame with itself is not.
#[test]
fn frame_at_255(rt: HostRuntime) -> Result<(), Fail> {
    play(
        &rt,
        &[
            Line::Setup,
            Line::Repeats(252, KEY),
            Line::Does(Call::NewSeat(102)),
            Line::Does(Call::Seat(102, SeatCall::Done)),
            Line::Refuses(
                Call::Device(201, DeviceCall::Paused(8)),
                EventError::StoreFull,
            ),
            Line::Refuses(Call::Keyboard(301, MODIFIERS_11), EventError::StoreFull),
            Line::Refuses(
                Call::Device(201, DeviceCall::Destroyed(8)),
                EventError::StoreFull,
            ),
            Line::Serial(5),
            Line::Does(Call::Device(201, DeviceCall::Frame(9, 1000))),
            Line::Serial(9),
        ],
    )
}

// At 256 held a Frame with pending events is refused; what adds nothing is accepted.
#[test]
fn frame_at_256(rt: HostRuntime) -> Result<(), Fail> {
    play(
        &rt,
        &[
            Line::Setup,
            Line::Repeats(252, KEY),
            Line::Does(Call::NewSeat(102)),
            Line::Does(Call::Seat(102, SeatCall::Done)),
            Line::Does(Call::NewSeat(103)),
            Line::Does(Call::Seat(103, SeatCall::Done)),
            Line::Refuses(
                Call::Device(201, DeviceCall::Frame(9, 1000)),
                EventError::StoreFull,
            ),
            Line::Refuses(
                Call::Seat(101, SeatCall::Destroyed(9)),
                EventError::StoreFull,
            ),
            Line::Refuses(
                Call::Device(201, DeviceCall::Paused(9)),
                EventError::StoreFull,
            ),
            Line::Refuses(Call::Disconnected(1), EventError::StoreFull),
            Line::Serial(5),
            Line::Refuses(
                Call::Device(202, DeviceCall::Paused(9)),
                EventError::DeviceEventBeforeDone,
            ),
            Line::Does(Call::Keyboard(302, KeyboardEvent::Destroyed { serial: 10 })),
            Line::Does(Call::Seat(104, SeatCall::Destroyed(11))),
            Line::Serial(11),
            Line::Next(2, 1, 0),
            Line::Does(Call::Device(201, DeviceCall::Frame(12, 1000))),
            Line::Serial(12),
        ],
    )
}

// Sixteen seats; a pending one gives its place.
#[test]
fn seats_are_full(rt: HostRuntime) -> Result<(), Fail> {
    let mut player = Player::new(&rt, 5)?;
    for seat in 1..=16u64 {
        player.plays(Line::Does(Call::NewSeat(seat)))?;
    }
    player.play(&[
        Line::Refuses(Call::NewSeat(17), EventError::TableFull),
        Line::Does(Call::NewSeat(16)),
        Line::Refuses(Call::NewSeat(17), EventError::TableFull),
        Line::Does(Call::Seat(16, SeatCall::Destroyed(6))),
        Line::Does(Call::NewSeat(17)),
    ])
}

// Thirty-two devices; a pending one gives its place.
#[test]
fn devices_are_full(rt: HostRuntime) -> Result<(), Fail> {
    let mut player = Player::new(&rt, 5)?;
    player.plays(Line::Setup)?;
    for device in 1..=31u64 {
        player.plays(Line::Does(Call::Seat(101, SeatCall::Device(device))))?;
    }
    player.play(&[
        Line::Refuses(Call::Seat(101, SeatCall::Device(32)), EventError::TableFull),
        Line::Does(Call::Seat(101, SeatCall::Device(31))),
    ])
}

// Thirty-two callbacks; a known one gets another ticket.
#[test]
fn callbacks_are_full(rt: HostRuntime) -> Result<(), Fail> {
    let mut player = Player::new(&rt, 5)?;
    for callback in 1..=32u64 {
        player.plays(Line::AddCallback(callback, 7, Ok(())))?;
    }
    player.play(&[
        Line::AddCallback(33, 7, Err(EventError::TableFull)),
        Line::AddCallback(32, 8, Ok(())),
    ])
}

// The masks of a set are joined; those that the seat never told count as 0.
#[test]
fn masks_are_joined(rt: HostRuntime) -> Result<(), Fail> {
    play(
        &rt,
        &[
            Line::Does(Call::NewSeat(101)),
            Line::Does(Call::Seat(
                101,
                SeatCall::Capability(4, Some(DeviceCapability::Keyboard)),
            )),
            Line::Does(Call::Seat(
                101,
                SeatCall::Capability(6, Some(DeviceCapability::Pointer)),
            )),
            Line::Does(Call::Seat(101, SeatCall::Done)),
            Line::Bind(1, 5, Ok(())),
            Line::Bind(1, 0, Ok(())),
            Line::Bind(1, 6, Ok(())),
            Line::Take(Some(Note::Bind { seat: 101, mask: 6 })),
            Line::Take(Some(Note::Bind { seat: 101, mask: 0 })),
            Line::Take(Some(Note::Bind { seat: 101, mask: 4 })),
            Line::Take(None),
            Line::Serial(5),
        ],
    )
}
