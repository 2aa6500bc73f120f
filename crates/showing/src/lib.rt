// Events as lines of text: what the converter hands out, as it is printed.
#![tactic(auto)]

ghost use Rattle.std.specs.Prelude.{Some};
ghost use Rattle.showing.specs.Showing.{event_line, explained, fields_of, float_bits};

use ei::device::Region;
use ei::event::EiEvent;
use ei::text::Text;
use std::fmt;
use std::num::f32_to_bits_with_nan;
use wording::Quoted;

// A float, by its bits: a type of its own, since six kinds of lines would repeat the format.
#[derive(Clone, Copy)]
struct Bits(f32);

impl fmt::Display for Bits {
    ghost output = { λ x. Some (float_bits x.0) };

    fn fmt<W: fmt::Write>(&self, f: &mut fmt::Formatter<W>) -> fmt::Result {
        write!(f, "0x{:08x}", f32_to_bits_with_nan(self.0))
    }
}

// A text that may be absent.
#[derive(Clone, Copy)]
struct Explained(Option<Text>);

impl fmt::Display for Explained {
    ghost output = { λ x. Some (explained x.0) };

    fn fmt<W: fmt::Write>(&self, f: &mut fmt::Formatter<W>) -> fmt::Result {
        match &self.0 {
            Some(text) => write!(f, "{}", Quoted(text.as_bytes())),
            None => write!(f, "-"),
        }
    }
}

// What an event tells besides its kind, its handle and its time, each with a space in front.
#[derive(Drop)]
struct Fields<'a>(&'a EiEvent);

impl fmt::Display for Fields<'_> {
    ghost output = { λ x. Some (fields_of x.0.now) };

    fn fmt<W: fmt::Write>(&self, f: &mut fmt::Formatter<W>) -> fmt::Result {
        match *self.0 {
            EiEvent::Disconnected(e) => write!(
                f,
                " {} {} {}",
                e.last_serial,
                u32::from(e.reason),
                Explained(e.explanation)
            ),
            EiEvent::SeatAdded(_)
            | EiEvent::SeatRemoved(_)
            | EiEvent::DeviceAdded(_)
            | EiEvent::DeviceRemoved(_) => Ok(()),
            EiEvent::DevicePaused(e) => write!(f, " {}", e.serial),
            EiEvent::DeviceResumed(e) => write!(f, " {}", e.serial),
            EiEvent::KeyboardModifiers(e) => write!(
                f,
                " {} {} {} {} {}",
                e.serial, e.depressed, e.latched, e.locked, e.group
            ),
            EiEvent::Frame(e) => write!(f, " {}", e.serial),
            EiEvent::DeviceStartEmulating(e) => write!(f, " {} {}", e.serial, e.sequence),
            EiEvent::DeviceStopEmulating(e) => write!(f, " {}", e.serial),
            EiEvent::PointerMotion(e) => write!(f, " {} {}", Bits(e.dx), Bits(e.dy)),
            EiEvent::PointerMotionAbsolute(e) => write!(
                f,
                " {} {}",
                Bits(e.dx_absolute),
                Bits(e.dy_absolute)
            ),
            EiEvent::Button(e) => write!(f, " {} {}", e.button, u32::from(e.state)),
            EiEvent::ScrollDelta(e) => write!(f, " {} {}", Bits(e.dx), Bits(e.dy)),
            EiEvent::ScrollStop(e) => write!(f, " {} {}", u8::from(e.x), u8::from(e.y)),
            EiEvent::ScrollCancel(e) => write!(f, " {} {}", u8::from(e.x), u8::from(e.y)),
            EiEvent::ScrollDiscrete(e) => write!(f, " {} {}", e.discrete_dx, e.discrete_dy),
            EiEvent::KeyboardKey(e) => write!(f, " {} {}", e.key, u32::from(e.state)),
            EiEvent::TouchDown(e) => write!(f, " {} {} {}", e.touch_id, Bits(e.x), Bits(e.y)),
            EiEvent::TouchUp(e) => write!(f, " {}", e.touch_id),
            EiEvent::TouchMotion(e) => write!(f, " {} {} {}", e.touch_id, Bits(e.x), Bits(e.y)),
            EiEvent::TouchCancel(e) => write!(f, " {}", e.touch_id),
            EiEvent::TextKeysym(e) => write!(f, " {} {}", e.keysym, u32::from(e.state)),
            EiEvent::TextUtf8(e) => write!(f, " {}", Explained(Some(e.text))),
        }
    }
}

// An event as a line of the output.
#[derive(Drop)]
pub struct EventLine<'a>(pub &'a EiEvent);

impl fmt::Display for EventLine<'_> {
    ghost output = { λ x. Some (event_line x.0.now) };

    fn fmt<W: fmt::Write>(&self, f: &mut fmt::Formatter<W>) -> fmt::Result {
        let event = self.0;
        write!(
            f,
            "{} {} {}{}",
            event.kind(),
            event.handle(),
            event.time(),
            Fields(event)
        )
    }
}

// A device's regions, a line each, in the order of their arrival: place, size, scale and mapping id.
#[derive(Drop)]
pub struct RegionLines<'a>(pub &'a [Region]);

impl fmt::Display for RegionLines<'_> {
    fn fmt<W: fmt::Write>(&self, f: &mut fmt::Formatter<W>) -> fmt::Result {
        for region in self.0 {
            writeln!(
                f,
                "{} {} {} {} {} {}",
                region.x,
                region.y,
                region.width,
                region.height,
                Bits(region.scale),
                Explained(region.mapping_id)
            )?;
        }
        Ok(())
    }
}
