// Quoted texts.
ghost use Rattle.std.specs.Prelude.{◌≡◌, Some};
ghost use Rattle.wording.specs.Quoting.{hex_pair, quoted, quoted_byte, step_of, unquoted, unquoted_from, ReadBack, ReadsAs};
ghost use Rattle.wording.specs.declared.quote.Place.TheVariants.{Between};

use crate::digits::hex_digit;
use crate::malformed::Malformed;
use std::fmt;

// The byte that two hex digits write. No `from_str_radix`, which takes a text: these are two bytes of a line.
fn hex_byte(high: u8, low: u8) -> Option<u8>
    ensures { result ≡ hex_pair high low }
{
    Some((hex_digit(high)? * 16 + hex_digit(low)?) as u8)
}

// Where the reading of a text stands, behind its opening quote: the reader's own state, and no choice of its caller's.
#[derive(Clone, Copy, PartialEq, Eq)]
pub enum Place {
    // Between two bytes of the text.
    Between,
    // Behind a backslash.
    Escape,
    // Behind a backslash and an x.
    High,
    // Behind a backslash, an x and this byte.
    Low(u8),
    // Behind the closing quote.
    Closed,
}

// One step of the reading: where it stands then, and the byte of the text that it completes, if any.
#[derive(Clone, Copy)]
pub struct Step {
    pub next: Place,
    pub done: Option<u8>,
}

impl Place {
    fn step(self, byte: u8) -> Option<Step>
        ensures { result ≡ step_of self byte }
    {
        let (next, done) = match self {
            Place::Between => match byte {
                b'"' => (Place::Closed, None),
                b'\\' => (Place::Escape, None),
                _ => (Place::Between, Some(byte)),
            },
            Place::Escape => match byte {
                b'"' | b'\\' => (Place::Between, Some(byte)),
                b'x' => (Place::High, None),
                _ => return None,
            },
            Place::High => (Place::Low(byte), None),
            Place::Low(high) => (Place::Between, Some(hex_byte(high, byte)?)),
            Place::Closed => return None,
        };
        Some(Step { next, done })
    }
}

// Puts the text that stands behind an opening quote in the place of what `out` holds.
#[tactic(auto, using(crate::proofs::Quoting::read_on))]
fn unquote_rest(rest: &[u8], out: &mut Vec<u8>) -> Result<(), Malformed>
    ensures { ReadsAs (unquoted_from Between rest.now) result out.new.items }
{
    out.clear();
    let mut place = Place::Between;
    for byte in rest {
        let Step { next, done } = place.step(*byte).ok_or(Malformed::BadText)?;
        place = next;
        if let Some(done) = done {
            out.push(done)?;
        }
    }
    if place == Place::Closed {
        Ok(())
    } else {
        Err(Malformed::BadText)
    }
}

// Puts the text that a quoted text writes in the place of what `out` holds.
#[tactic(auto, using(crate::proofs::ReadBack::read_back))]
pub fn unquote(text: &[u8], out: &mut Vec<u8>) -> Result<(), Malformed>
    ensures reads { ReadsAs (unquoted text.now) result out.new.items }
    ensures back { ReadBack }
{
    let rest = text
        .strip_prefix(b"\"".as_slice())
        .ok_or(Malformed::BadText)?;
    unquote_rest(rest, out)
}

// A byte of a quoted text.
#[derive(Clone, Copy)]
struct QuotedByte(u8);

impl fmt::Display for QuotedByte {
    ghost output = { λ x. Some (quoted_byte x.0) };

    fn fmt<W: fmt::Write>(&self, f: &mut fmt::Formatter<W>) -> fmt::Result {
        match self.0 {
            b'"' => write!(f, "\\\""),
            b'\\' => write!(f, "\\\\"),
            b' '..=b'~' => write!(f, "{}", char::from(self.0)),
            byte => write!(f, "\\x{byte:02x}"),
        }
    }
}

// A text in double quotes.
#[derive(Clone, Copy)]
pub struct Quoted<'a>(pub &'a [u8]);

impl fmt::Display for Quoted<'_> {
    ghost output = { λ x. Some (quoted x.0.now) };

    fn fmt<W: fmt::Write>(&self, f: &mut fmt::Formatter<W>) -> fmt::Result {
        write!(f, "\"")?;
        for byte in self.0 {
            write!(f, "{}", QuotedByte(*byte))?;
        }
        write!(f, "\"")
    }
}
