// The lines that are low-level events, by interface. Each interface's events are an enum of its own by the protocol, and the function that
// reads them says all of them, `destroyed` too. A name and what is left of the line come together and part at once: the one is matched and
// the other is read.
ghost use Rattle.std.specs.Prelude.{◌≡◌, IfOk};
ghost use Rattle.script.specs.Events.{object_from, ButtonLine, CallbackLine, ConnectionLine, DeviceLine, EventLine, KeyboardLine, PointerAbsoluteLine, PointerLine, ScrollLine, SeatLine, TextLine, TouchscreenLine};

use crate::fields::Case;
use crate::rest::LineRest;
use ei::capability::DeviceCapability;
use ei::object::Object;
use ei::proto::{
    ButtonEvent, CallbackEvent, ConnectionEvent, DeviceEvent, Event, KeyboardEvent,
    PointerAbsoluteEvent, PointerEvent, ScrollEvent, SeatEvent, TextEvent, TouchscreenEvent,
};
use wording::Malformed;

// The event of this name on this interface, with the words that follow.
pub fn event<'a>(
    interface: &str,
    name: &str,
    mut rest: LineRest<'_, 'a>,
) -> Result<Event<'a>, Malformed>
    ensures { IfOk result (EventLine interface.now name.now rest.entry.words) }
{
    if interface == "connection" {
        return Ok(Event::Connection(connection_event(name, rest)?));
    }
    let object = rest.next()?;
    Ok(match interface {
        "callback" => Event::Callback(object, callback_event(name, &mut rest)?),
        "seat" => Event::Seat(object, seat_event(name, rest)?),
        "device" => Event::Device(object, device_event(name, rest)?),
        "keyboard" => Event::Keyboard(object, keyboard_event(name, &mut rest)?),
        "pointer" => Event::Pointer(object, pointer_event(name, &mut rest)?),
        "pointer_absolute" => Event::PointerAbsolute(
            object,
            pointer_absolute_event(name, &mut rest)?,
        ),
        "scroll" => Event::Scroll(object, scroll_event(name, &mut rest)?),
        "button" => Event::Button(object, button_event(name, &mut rest)?),
        "touchscreen" => Event::Touchscreen(object, touchscreen_event(name, &mut rest)?),
        "text" => Event::Text(object, text_event(name, rest)?),
        _ => return Err(unknown(name, &mut rest)),
    })
}

// Why a name is refused on an interface that has no such event. The serial of a `destroyed` is read first, whatever the interface.
fn unknown(name: &str, rest: &mut LineRest<'_, '_>) -> Malformed {
    if name == "destroyed" {
        if let Err(malformed) = rest.next::<u32>() {
            return malformed;
        }
    }
    Malformed::UnknownWord
}

fn connection_event<'a>(
    name: &str,
    mut rest: LineRest<'_, 'a>,
) -> Result<ConnectionEvent<'a>, Malformed>
    ensures { IfOk result (ConnectionLine name.now rest.entry.words) }
{
    Ok(match name {
        "seat" => ConnectionEvent::Seat { seat: rest.last()? },
        "ping" => ConnectionEvent::Ping { ping: rest.last()? },
        "disconnected" => {
            let (last_serial, Case(reason)) = rest.next()?;
            ConnectionEvent::Disconnected {
                last_serial,
                reason,
                explanation: rest.optional_text()?,
            }
        }
        "invalid_object" => {
            let (last_serial, invalid_id) = rest.last()?;
            ConnectionEvent::InvalidObject {
                last_serial,
                invalid_id,
            }
        }
        _ => return Err(Malformed::UnknownWord),
    })
}

fn callback_event(name: &str, rest: &mut LineRest<'_, '_>) -> Result<CallbackEvent, Malformed>
    ensures { IfOk result (CallbackLine name.now rest.old.words) }
{
    match name {
        "done" => Ok(CallbackEvent::Done {
            callback_data: rest.last()?,
        }),
        _ => Err(unknown(name, rest)),
    }
}

fn seat_event<'a>(name: &str, mut rest: LineRest<'_, 'a>) -> Result<SeatEvent<'a>, Malformed>
    ensures { IfOk result (SeatLine name.now rest.entry.words) }
{
    Ok(match name {
        "name" => SeatEvent::Name { name: rest.text()? },
        "capability" => {
            let (mask, interface) = rest.last()?;
            SeatEvent::Capability { mask, interface }
        }
        "done" => {
            rest.end()?;
            SeatEvent::Done
        }
        "device" => SeatEvent::Device {
            device: rest.last()?,
        },
        "destroyed" => SeatEvent::Destroyed {
            serial: rest.last()?,
        },
        _ => return Err(Malformed::UnknownWord),
    })
}

// The events of a device, those that describe it first.
fn device_event<'a>(name: &str, mut rest: LineRest<'_, 'a>) -> Result<DeviceEvent<'a>, Malformed>
    ensures { IfOk result (DeviceLine name.now rest.entry.words) }
{
    Ok(match name {
        "name" => DeviceEvent::Name { name: rest.text()? },
        "device_type" => {
            let Case(device_type) = rest.last()?;
            DeviceEvent::DeviceType { device_type }
        }
        "dimensions" => {
            let (width, height) = rest.last()?;
            DeviceEvent::Dimensions { width, height }
        }
        "region" => {
            let (offset_x, offset_y) = rest.next()?;
            let (width, height, scale) = rest.last()?;
            DeviceEvent::Region {
                offset_x,
                offset_y,
                width,
                height,
                scale,
            }
        }
        "region_mapping_id" => DeviceEvent::RegionMappingId {
            mapping_id: rest.text()?,
        },
        "interface" => {
            let (kind, number) = rest.last()?;
            DeviceEvent::Interface {
                object: object_of(kind, number),
            }
        }
        "done" => {
            rest.end()?;
            DeviceEvent::Done
        }
        _ => device_state_event(name, &mut rest)?,
    })
}

// An interface object; none where the interface is of no known kind.
fn object_of(kind: Option<DeviceCapability>, number: u64) -> Option<Object>
    ensures { result ≡ object_from kind number }
{
    kind.map(|kind| Object { kind, number })
}

fn device_state_event<'a>(
    name: &str,
    rest: &mut LineRest<'_, '_>,
) -> Result<DeviceEvent<'a>, Malformed>
    ensures { IfOk result (DeviceLine name.now rest.old.words) }
{
    Ok(match name {
        "resumed" => DeviceEvent::Resumed {
            serial: rest.last()?,
        },
        "paused" => DeviceEvent::Paused {
            serial: rest.last()?,
        },
        "start_emulating" => {
            let (serial, sequence) = rest.last()?;
            DeviceEvent::StartEmulating { serial, sequence }
        }
        "stop_emulating" => DeviceEvent::StopEmulating {
            serial: rest.last()?,
        },
        "frame" => {
            let (serial, timestamp) = rest.last()?;
            DeviceEvent::Frame { serial, timestamp }
        }
        "destroyed" => DeviceEvent::Destroyed {
            serial: rest.last()?,
        },
        _ => return Err(Malformed::UnknownWord),
    })
}

fn keyboard_event(name: &str, rest: &mut LineRest<'_, '_>) -> Result<KeyboardEvent, Malformed>
    ensures { IfOk result (KeyboardLine name.now rest.old.words) }
{
    Ok(match name {
        "keymap" => {
            let (Case(keymap_type), size, keymap) = rest.last()?;
            KeyboardEvent::Keymap {
                keymap_type,
                size,
                keymap,
            }
        }
        "key" => {
            let (key, Case(state)) = rest.last()?;
            KeyboardEvent::Key { key, state }
        }
        "modifiers" => {
            let (serial, depressed) = rest.next()?;
            let (locked, latched, group) = rest.last()?;
            KeyboardEvent::Modifiers {
                serial,
                depressed,
                locked,
                latched,
                group,
            }
        }
        "destroyed" => KeyboardEvent::Destroyed {
            serial: rest.last()?,
        },
        _ => return Err(Malformed::UnknownWord),
    })
}

fn pointer_event(name: &str, rest: &mut LineRest<'_, '_>) -> Result<PointerEvent, Malformed>
    ensures { IfOk result (PointerLine name.now rest.old.words) }
{
    Ok(match name {
        "motion_relative" => {
            let (x, y) = rest.last()?;
            PointerEvent::MotionRelative { x, y }
        }
        "destroyed" => PointerEvent::Destroyed {
            serial: rest.last()?,
        },
        _ => return Err(Malformed::UnknownWord),
    })
}

fn pointer_absolute_event(
    name: &str,
    rest: &mut LineRest<'_, '_>,
) -> Result<PointerAbsoluteEvent, Malformed>
    ensures { IfOk result (PointerAbsoluteLine name.now rest.old.words) }
{
    Ok(match name {
        "motion_absolute" => {
            let (x, y) = rest.last()?;
            PointerAbsoluteEvent::MotionAbsolute { x, y }
        }
        "destroyed" => PointerAbsoluteEvent::Destroyed {
            serial: rest.last()?,
        },
        _ => return Err(Malformed::UnknownWord),
    })
}

fn scroll_event(name: &str, rest: &mut LineRest<'_, '_>) -> Result<ScrollEvent, Malformed>
    ensures { IfOk result (ScrollLine name.now rest.old.words) }
{
    Ok(match name {
        "scroll" => {
            let (x, y) = rest.last()?;
            ScrollEvent::Scroll { x, y }
        }
        "scroll_discrete" => {
            let (x, y) = rest.last()?;
            ScrollEvent::ScrollDiscrete { x, y }
        }
        "scroll_stop" => {
            let (x, y, is_cancel) = rest.last()?;
            ScrollEvent::ScrollStop { x, y, is_cancel }
        }
        "destroyed" => ScrollEvent::Destroyed {
            serial: rest.last()?,
        },
        _ => return Err(Malformed::UnknownWord),
    })
}

fn button_event(name: &str, rest: &mut LineRest<'_, '_>) -> Result<ButtonEvent, Malformed>
    ensures { IfOk result (ButtonLine name.now rest.old.words) }
{
    Ok(match name {
        "button" => {
            let (button, Case(state)) = rest.last()?;
            ButtonEvent::Button { button, state }
        }
        "destroyed" => ButtonEvent::Destroyed {
            serial: rest.last()?,
        },
        _ => return Err(Malformed::UnknownWord),
    })
}

fn touchscreen_event(name: &str, rest: &mut LineRest<'_, '_>) -> Result<TouchscreenEvent, Malformed>
    ensures { IfOk result (TouchscreenLine name.now rest.old.words) }
{
    Ok(match name {
        "down" => {
            let (touchid, x, y) = rest.last()?;
            TouchscreenEvent::Down { touchid, x, y }
        }
        "motion" => {
            let (touchid, x, y) = rest.last()?;
            TouchscreenEvent::Motion { touchid, x, y }
        }
        "up" => TouchscreenEvent::Up {
            touchid: rest.last()?,
        },
        "cancel" => TouchscreenEvent::Cancel {
            touchid: rest.last()?,
        },
        "destroyed" => TouchscreenEvent::Destroyed {
            serial: rest.last()?,
        },
        _ => return Err(Malformed::UnknownWord),
    })
}

fn text_event<'a>(name: &str, mut rest: LineRest<'_, 'a>) -> Result<TextEvent<'a>, Malformed>
    ensures { IfOk result (TextLine name.now rest.entry.words) }
{
    Ok(match name {
        "keysym" => {
            let (keysym, Case(state)) = rest.last()?;
            TextEvent::Keysym { keysym, state }
        }
        "utf8" => TextEvent::Utf8 { text: rest.text()? },
        "destroyed" => TextEvent::Destroyed {
            serial: rest.last()?,
        },
        _ => return Err(Malformed::UnknownWord),
    })
}
