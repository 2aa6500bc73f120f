// The lines of a session.
ghost use Rattle.std.specs.Prelude.{IfOk};
ghost use Rattle.script.specs.Lines.{Asks, LineAsks};

use crate::events::event;
use crate::rest::LineRest;
use ei::proto::Event;
use ei::set::CapabilitySet;
use std::str::from_utf8;
use wording::Malformed;

// What a line asks for. The texts of an event are borrowed from the buffer that the line was read with.
#[derive(Clone, Copy)]
pub enum Line<'a> {
    Skip,
    Start { serial: u32 },
    Reading { micros: u64 },
    Take,
    Next,
    Callback { callback: u64, ticket: u32 },
    Bind { handle: u32, set: CapabilitySet },
    RetireSeat { handle: u32 },
    RetireDevice { handle: u32 },
    Event(Event<'a>),
}

// Reads one line, without its line feed. An empty line and one that begins with `#` are skipped.
pub fn parse<'a>(line: &[u8], scratch: &'a mut Vec<u8>) -> Result<Line<'a>, Malformed>
    ensures { IfOk result (LineAsks line.now) }
{
    if let [] | [b'#', ..] = line {
        return Ok(Line::Skip);
    }
    let mut rest = LineRest::new(line, scratch);
    let word = from_utf8(rest.word()?).map_err(|_| Malformed::UnknownWord)?;
    match word.split_once('.') {
        Some((interface, name)) => Ok(Line::Event(event(interface, name, rest)?)),
        None => call_line(word, &mut rest),
    }
}

// The lines whose first word has no dot.
fn call_line<'a>(call: &str, rest: &mut LineRest<'_, '_>) -> Result<Line<'a>, Malformed>
    ensures { IfOk result (Asks call.now rest.old.words) }
{
    Ok(match call {
        "start" => Line::Start {
            serial: rest.last()?,
        },
        "reading" => Line::Reading {
            micros: rest.last()?,
        },
        "take" => {
            rest.end()?;
            Line::Take
        }
        "next" => {
            rest.end()?;
            Line::Next
        }
        "callback" => {
            let (callback, ticket) = rest.last()?;
            Line::Callback { callback, ticket }
        }
        "bind" => {
            let (handle, set) = rest.last()?;
            Line::Bind { handle, set }
        }
        "retire_seat" => Line::RetireSeat {
            handle: rest.last()?,
        },
        "retire_device" => Line::RetireDevice {
            handle: rest.last()?,
        },
        "handshake" => {
            rest.end()?;
            Line::Event(Event::Handshake)
        }
        _ => return Err(Malformed::UnknownWord),
    })
}
