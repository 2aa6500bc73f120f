// In which order events are handed out, and whose they are.
use crate::line::{Call, DeviceCall, Line, SeatCall};
use crate::samples::{
    DONE, KEYBOARD, MODIFIERS_11, PRESS_30, PRESS_31, RELEASE_30, SECOND_KEYBOARD,
};
use crate::tests::play::play;
use ei::enums::DeviceType;
use ei::error::EventError;
use host::Note;
use std::test::Fail;

// A Frame commits its own device's events alone.
#[test]
fn frame_of_one_device(rt: HostRuntime) -> Result<(), Fail> {
    play(
        &rt,
        &[
            Line::Setup,
            Line::Does(Call::Seat(101, SeatCall::Device(202))),
            Line::Does(Call::Device(202, DeviceCall::Type(DeviceType::Virtual))),
            Line::Does(Call::Device(202, DeviceCall::Interface(SECOND_KEYBOARD))),
            Line::Does(Call::Device(202, DeviceCall::Done)),
            Line::Does(Call::Keyboard(302, PRESS_31)),
            Line::Does(Call::Keyboard(301, PRESS_30)),
            Line::Does(Call::Device(201, DeviceCall::Frame(9, 1000))),
            Line::Next(2, 1, 0),
            Line::Next(4, 2, 0),
            Line::Next(4, 3, 0),
            Line::Next(19, 2, 1000),
            Line::Next(9, 2, 1000),
            Line::NoNext,
            Line::Does(Call::Device(202, DeviceCall::Frame(10, 2000))),
            Line::Next(19, 3, 2000),
            Line::Next(9, 3, 2000),
            Line::NoNext,
            Line::Serial(10),
        ],
    )
}

// Paused comes behind earlier keys and the Frame that it forces.
#[test]
fn paused_behind_keys(rt: HostRuntime) -> Result<(), Fail> {
    play(
        &rt,
        &[
            Line::Setup,
            Line::Next(2, 1, 0),
            Line::Next(4, 2, 0),
            Line::Does(Call::Keyboard(301, PRESS_30)),
            Line::NoNext,
            Line::Reading(700),
            Line::Does(Call::Device(201, DeviceCall::Paused(6))),
            Line::Next(19, 2, 700),
            Line::Next(9, 2, 700),
            Line::Next(6, 2, 0),
            Line::NoNext,
            Line::Serial(6),
        ],
    )
}

// A device added again inherits nothing; the key stays with the former handle until its own keyboard forces a Frame.
#[test]
fn device_added_again(rt: HostRuntime) -> Result<(), Fail> {
    play(
        &rt,
        &[
            Line::Setup,
            Line::Does(Call::Keyboard(301, PRESS_30)),
            Line::Does(Call::Seat(101, SeatCall::Device(201))),
            Line::Does(Call::Device(201, DeviceCall::Type(DeviceType::Virtual))),
            Line::Does(Call::Device(201, DeviceCall::Interface(SECOND_KEYBOARD))),
            Line::Does(Call::Device(201, DeviceCall::Done)),
            Line::Does(Call::Device(201, DeviceCall::Frame(9, 1000))),
            Line::Next(2, 1, 0),
            Line::Next(4, 2, 0),
            Line::Next(4, 3, 0),
            Line::NoNext,
            Line::Reading(1200),
            Line::Does(Call::Keyboard(301, MODIFIERS_11)),
            Line::Next(19, 2, 1200),
            Line::Next(9, 2, 1200),
            Line::Next(8, 2, 0),
            Line::NoNext,
            Line::Serial(11),
        ],
    )
}

// Destroyed of the former owner takes the keyboard from the later one, whose key stays.
#[test]
fn former_owner_destroyed(rt: HostRuntime) -> Result<(), Fail> {
    play(
        &rt,
        &[
            Line::Setup,
            Line::Does(Call::Seat(101, SeatCall::Device(202))),
            Line::Does(Call::Device(202, DeviceCall::Type(DeviceType::Virtual))),
            Line::Does(Call::Device(202, DeviceCall::Interface(KEYBOARD))),
            Line::Does(Call::Device(202, DeviceCall::Done)),
            Line::Does(Call::Keyboard(301, PRESS_30)),
            Line::Does(Call::Device(201, DeviceCall::Destroyed(8))),
            Line::Refuses(
                Call::Keyboard(301, RELEASE_30),
                EventError::DeviceEventBeforeDone,
            ),
            Line::Next(2, 1, 0),
            Line::Next(4, 2, 0),
            Line::Next(4, 3, 0),
            Line::Next(5, 2, 0),
            Line::NoNext,
            Line::Does(Call::Device(202, DeviceCall::Frame(9, 1000))),
            Line::Next(19, 3, 1000),
            Line::Next(9, 3, 1000),
            Line::NoNext,
            Line::Serial(9),
        ],
    )
}

// A callback is run once, with its last ticket.
#[test]
fn callback_is_run_once(rt: HostRuntime) -> Result<(), Fail> {
    play(
        &rt,
        &[
            Line::AddCallback(900, 7, Ok(())),
            Line::AddCallback(900, 77, Ok(())),
            Line::Does(Call::Callback(900, DONE)),
            Line::Does(Call::Callback(900, DONE)),
            Line::Take(Some(Note::Run {
                ticket: 77,
                data: 4,
            })),
            Line::Take(None),
        ],
    )
}
