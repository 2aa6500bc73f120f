// Retiring, and the last handle: seats that come, go and are retired use up a million handles.
use crate::line::{Call, Line, SeatCall};
use crate::tests::play::Player;
use ei::error::EventError;
use std::process::Abort;
use std::test::Fail;

// A seat is set up, is gone, is handed out twice, and is retired.
fn come_and_go<R: Abort + AllocGlobal>(rt: &R, player: &mut Player<R>, handle: u32) {
    player.answers(Call::NewSeat(101), Ok(()));
    player.answers(Call::Seat(101, SeatCall::Done), Ok(()));
    player.answers(Call::Seat(101, SeatCall::Destroyed(1)), Ok(()));
    assert_eq!(rt;
        player.converter.retire_seat(handle),
        Err(EventError::HandleBusy)
    );
    assert!(rt; player.next().is_some());
    assert!(rt; player.next().is_some_and(|event| event.handle() == handle));
    assert_eq!(rt; player.converter.retire_seat(handle), Ok(()));
}

// The refusal leaves the seat pending and queues nothing.
#[test]
fn handles_used_up(rt: HostRuntime) -> Result<(), Fail> {
    let mut player = Player::new(&rt, 5)?;
    for handle in 1..=1_000_000u32 {
        come_and_go(&rt, &mut player, handle);
    }
    player.play(&[
        Line::Does(Call::NewSeat(101)),
        Line::Refuses(Call::Seat(101, SeatCall::Done), EventError::HandlesUsedUp),
        Line::Refuses(Call::Seat(101, SeatCall::Done), EventError::HandlesUsedUp),
        Line::NoNext,
        Line::Serial(1),
    ])
}
