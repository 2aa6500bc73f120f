// Small histories of an event store.
use crate::tests::play::seen;
use ei::enums::KeyState;
use ei::error::EventError;
use ei::event::{DevicePaused, EiEvent, Frame, KeyboardKey, SeatAdded};
use std::test::Fail;
use store::EventStore;

fn key(device: u32, key: u32) -> EiEvent {
    EiEvent::KeyboardKey(KeyboardKey {
        device,
        time: 7,
        key,
        state: KeyState::Press,
    })
}

fn frame(device: u32, time: u64) -> Frame {
    Frame {
        device,
        serial: 1,
        time,
    }
}

fn paused(device: u32) -> EiEvent {
    EiEvent::DevicePaused(DevicePaused { device, serial: 2 })
}

fn seat(seat: u32) -> EiEvent {
    EiEvent::SeatAdded(SeatAdded { seat })
}

// A store with so many seats queued.
fn filled(rt: &HostRuntime, seats: u32) -> Result<EventStore, Fail> {
    let mut store = EventStore::new(rt.alloc())?;
    for number in 0..seats {
        store.queue(seat(number))?;
    }
    Ok(store)
}

#[test]
fn timed_events_leave_two_places(rt: HostRuntime) -> Result<(), Fail> {
    let mut store = filled(&rt, 253)?;
    assert_eq!(rt; store.hold(key(1, 30)), Ok(()));
    assert_eq!(rt; store.held(), 254);
    assert_eq!(rt; store.hold(key(1, 31)), Err(EventError::StoreFull));
    assert_eq!(rt; store.held(), 254);
    Ok(())
}

#[test]
fn frame_takes_the_last_place(rt: HostRuntime) -> Result<(), Fail> {
    let mut store = filled(&rt, 253)?;
    store.hold(key(1, 30))?;
    store.queue(seat(9))?;
    assert_eq!(rt; store.held(), 255);
    assert_eq!(rt; store.commit(frame(1, 50)), Ok(()));
    assert_eq!(rt; store.held(), 256);
    assert!(rt; !store.has_pending(1));
    Ok(())
}

#[test]
fn frame_finds_no_place(rt: HostRuntime) -> Result<(), Fail> {
    let mut store = filled(&rt, 253)?;
    store.hold(key(1, 30))?;
    store.queue(seat(9))?;
    store.queue(seat(9))?;
    assert_eq!(rt; store.held(), 256);
    assert_eq!(rt; store.commit(frame(1, 50)), Err(EventError::StoreFull));
    assert_eq!(rt; store.commit(frame(2, 50)), Ok(()));
    assert_eq!(rt; store.held(), 256);
    assert!(rt; store.has_pending(1));
    assert_eq!(rt; store.next().map(seen), Some((2, 0, 0)));
    Ok(())
}

#[test]
fn queue_takes_the_last_place(rt: HostRuntime) -> Result<(), Fail> {
    let mut store = filled(&rt, 255)?;
    assert!(rt; store.fits(1));
    assert_eq!(rt; store.queue(seat(9)), Ok(()));
    assert!(rt; !store.fits(1));
    assert!(rt; store.fits(0));
    assert_eq!(rt; store.queue(seat(9)), Err(EventError::StoreFull));
    assert_eq!(rt; store.held(), 256);
    assert_eq!(rt; store.next().map(seen), Some((2, 0, 0)));
    assert_eq!(rt; store.queue(seat(9)), Ok(()));
    Ok(())
}

#[test]
fn frame_of_another_device(rt: HostRuntime) -> Result<(), Fail> {
    let mut store = EventStore::new(rt.alloc())?;
    store.hold(key(1, 30))?;
    store.hold(key(2, 31))?;
    store.hold(key(1, 32))?;
    store.commit(frame(3, 40))?;
    assert_eq!(rt; store.held(), 3);
    store.commit(frame(2, 50))?;
    assert!(rt; store.has_pending(1));
    assert!(rt; !store.has_pending(2));
    assert_eq!(rt; store.next().map(seen), Some((19, 2, 50)));
    assert_eq!(rt; store.next().map(seen), Some((9, 2, 50)));
    assert!(rt; store.next().is_none());
    store.commit(frame(1, 60))?;
    assert_eq!(rt; store.next().map(seen), Some((19, 1, 60)));
    assert_eq!(rt; store.next().map(seen), Some((19, 1, 60)));
    assert_eq!(rt; store.next().map(seen), Some((9, 1, 60)));
    assert!(rt; store.next().is_none());
    Ok(())
}

#[test]
fn pause_forces_a_frame(rt: HostRuntime) -> Result<(), Fail> {
    let mut store = EventStore::new(rt.alloc())?;
    store.hold(key(2, 31))?;
    store.queue_framed(frame(2, 1500), paused(2))?;
    assert_eq!(rt; store.next().map(seen), Some((19, 2, 1500)));
    assert_eq!(rt; store.next().map(seen), Some((9, 2, 1500)));
    assert_eq!(rt; store.next().map(seen), Some((6, 2, 0)));
    store.queue_framed(frame(2, 1600), paused(2))?;
    assert_eq!(rt; store.next().map(seen), Some((6, 2, 0)));
    assert!(rt; store.next().is_none());
    Ok(())
}

#[test]
fn forced_frame_comes_with_its_event_or_not_at_all(rt: HostRuntime) -> Result<(), Fail> {
    let mut store = filled(&rt, 253)?;
    store.hold(key(1, 30))?;
    store.queue(seat(9))?;
    assert_eq!(rt;
        store.queue_framed(frame(1, 50), paused(1)),
        Err(EventError::StoreFull)
    );
    assert_eq!(rt; store.held(), 255);
    assert!(rt; store.has_pending(1));
    assert_eq!(rt; store.queue_framed(frame(2, 50), paused(2)), Ok(()));
    assert_eq!(rt; store.held(), 256);
    Ok(())
}

#[test]
fn discarded_events_are_gone(rt: HostRuntime) -> Result<(), Fail> {
    let mut store = EventStore::new(rt.alloc())?;
    store.hold(key(1, 30))?;
    store.hold(key(2, 31))?;
    store.queue(seat(1))?;
    store.discard(1);
    assert!(rt; !store.has_pending(1));
    assert!(rt; store.has_pending(2));
    assert_eq!(rt; store.held(), 2);
    assert_eq!(rt; store.next().map(seen), Some((2, 1, 0)));
    Ok(())
}

#[test]
fn queued_events_name_handles(rt: HostRuntime) -> Result<(), Fail> {
    let mut store = EventStore::new(rt.alloc())?;
    store.hold(key(1, 30))?;
    assert!(rt; !store.names(1));
    store.queue(seat(4))?;
    store.queue(paused(5))?;
    assert!(rt; store.names(4));
    assert!(rt; store.names(5));
    assert_eq!(rt; store.next().map(seen), Some((2, 4, 0)));
    assert!(rt; !store.names(4));
    Ok(())
}
