// Runs a fixed session and prints a line for each event that it gives: its kind, its handle and its time.
#![tactic(auto)]

use anyhow::anyhow;
use converter::convert::EiEventConverter;
use ei::capability::DeviceCapability;
use ei::enums::{DeviceType, KeyState};
use ei::error::EventError;
use ei::event::{EiEvent, SeatAdded};
use ei::object::Object;
use ei::proto::{ConnectionEvent, DeviceEvent, Event, KeyboardEvent, SeatEvent};
use host::KeptHost;
use std::alloc::Global;

const SEAT: u64 = 101;

const DEVICE: u64 = 201;

const KEYBOARD: u64 = 301;

type Converter = EiEventConverter<KeptHost>;

// A seat with a virtual keyboard.
fn set_up(converter: &mut Converter) -> Result<(), EventError> {
    let device_type = DeviceType::Virtual;
    let object = Some(Object {
        kind: DeviceCapability::Keyboard,
        number: KEYBOARD,
    });
    for event in [
        Event::Connection(ConnectionEvent::Seat { seat: SEAT }),
        Event::Seat(SEAT, SeatEvent::Done),
        Event::Seat(SEAT, SeatEvent::Device { device: DEVICE }),
        Event::Device(DEVICE, DeviceEvent::DeviceType { device_type }),
        Event::Device(DEVICE, DeviceEvent::Interface { object }),
        Event::Device(DEVICE, DeviceEvent::Done),
    ] {
        converter.handle_event(event)?;
    }
    Ok(())
}

fn key(key: u32, state: KeyState) -> Event<'static> {
    Event::Keyboard(KEYBOARD, KeyboardEvent::Key { key, state })
}

// Key 30 down and up in one frame, and key 31 down before the device is paused.
fn keying(converter: &mut Converter) -> Result<(), EventError> {
    let frame = DeviceEvent::Frame {
        serial: 9,
        timestamp: 1000,
    };
    for event in [
        key(30, KeyState::Press),
        key(30, KeyState::Released),
        Event::Device(DEVICE, frame),
        key(31, KeyState::Press),
    ] {
        converter.handle_event(event)?;
    }
    converter.host.set_reading(1500);
    converter.handle_event(Event::Device(DEVICE, DeviceEvent::Paused { serial: 10 }))
}

fn print(rt: &impl Print, converter: &mut Converter) -> anyhow::Result<()> {
    let mut event = EiEvent::SeatAdded(SeatAdded { seat: 0 });
    while converter.next_event(&mut event) {
        let (kind, handle, time) = (event.kind(), event.handle(), event.time());
        println!(rt; "{kind} {handle} {time}")?;
    }
    Ok(())
}

fn run(rt: &HostRuntime, heap: Global) -> anyhow::Result<()> {
    let mut converter = Converter::new(heap, KeptHost::new(heap)?, 5).map_err(|_| anyhow!(
        "no memory for the converter"
    ))?;
    set_up(&mut converter)
        .and_then(|()| keying(&mut converter))
        .map_err(|_| anyhow!("the session was refused"))?;
    print(rt, &mut converter)
}

fn main(rt: HostRuntime) -> anyhow::Result<()> {
    run(&rt, rt.alloc())
}
