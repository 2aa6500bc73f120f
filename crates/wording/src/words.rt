// The words of a line, one after the other.
ghost use Rattle.std.specs.Prelude.{◌≡◌, not, is_some, IfOk, Some, None, Ok, Err, MatchResult};
ghost use Rattle.std.specs.Option.{option_map};
ghost use Rattle.wording.specs.Words.{after_word, at_end, before, behind, next_word, text_in};

use crate::malformed::Malformed;
use crate::quote::unquote;
use std::marker::Model;

// What stands before the first of these bytes, and what stands behind it, if there is one. A match, since its two arms give
// different pairs.
fn split(bytes: &[u8], separator: u8) -> (&[u8], Option<&[u8]>)
    ensures front { result.0.now ≡ before separator bytes.now }
    ensures back { option_map (λ x. x.now) result.1 ≡ behind separator bytes.now }
{
    match bytes.iter().position(|byte| *byte == separator) {
        Some(i) => (&bytes[..i], Some(&bytes[i + 1..])),
        None => (bytes, None),
    }
}

// The words of a line. Seen as what is left of it; none behind its last word.
#[derive(Drop)]
pub struct Words<'a> {
    rest: Option<&'a [u8]>,
}

impl<'a> Model for Words<'a> {
    ghost use Rattle.std.specs.Prelude.{ℕ, List, Option};
    ghost use Rattle.std.specs.Option.{option_map};

    ghost Value = { Option (List ℕ) };

    ghost view = { λ w. option_map (λ x. x.now) w.rest };
}

impl<'a> Words<'a> {
    pub fn new(line: &'a [u8]) -> Words<'a>
        ensures { result ≡ Some line.now }
    {
        Words { rest: Some(line) }
    }

    // Whether no word is left.
    pub fn is_end(&self) -> bool
        ensures { result ≡ not (is_some self.now) }
    {
        self.rest.is_none()
    }

    // Refuses a line with a word left.
    pub fn end(&self) -> Result<(), Malformed>
        ensures { result ≡ at_end self.now }
    {
        if self.is_end() {
            Ok(())
        } else {
            Err(Malformed::ExtraWord)
        }
    }

    // The next word. Two spaces have none between them.
    pub fn next_word(&mut self) -> Result<&'a [u8], Malformed>
        ensures word { MatchResult result (λ w. next_word self.old ≡ Ok w.now) (λ e. next_word self.old ≡ Err e) }
        ensures rest { self.new ≡ after_word self.old }
    {
        let rest = self.rest.ok_or(Malformed::MissingWord)?;
        let (word, behind) = split(rest, b' ');
        self.rest = behind;
        if word.is_empty() {
            return Err(Malformed::MissingWord);
        }
        Ok(word)
    }

    // The text that is the rest of the line, in the place of what the scratch buffer holds.
    pub fn text<'t>(&mut self, scratch: &'t mut Vec<u8>) -> Result<&'t [u8], Malformed>
        ensures text { IfOk result (λ t. text_in self.old ≡ Some t.now) }
        ensures rest { self.new ≡ None }
    {
        let rest = self.rest.take().ok_or(Malformed::MissingWord)?;
        unquote(rest, scratch)?;
        Ok(scratch.as_slice())
    }
}
