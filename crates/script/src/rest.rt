// What is left of a line that is being read.
ghost use Rattle.std.specs.Prelude.{◌≡◌, Some, None, Ok, IfOk, MatchOption};
ghost use Rattle.wording.specs.Words.{after_word, at_end, next_word, text_in};

use crate::fields::Field;
use wording::{Malformed, Words};

// The words that are left of a line, and the buffer for the text that may end it.
#[derive(Drop)]
pub struct LineRest<'l, 'a> {
    words: Words<'l>,
    scratch: &'a mut Vec<u8>,
}

impl<'l, 'a> LineRest<'l, 'a> {
    pub fn new(line: &'l [u8], scratch: &'a mut Vec<u8>) -> LineRest<'l, 'a>
        ensures { result.words ≡ Some line.now }
    {
        LineRest {
            words: Words::new(line),
            scratch,
        }
    }

    // The next word.
    pub fn word(&mut self) -> Result<&'l [u8], Malformed>
        ensures word { IfOk result (λ w. next_word self.old.words ≡ Ok w.now) }
        ensures rest { self.new.words ≡ after_word self.old.words }
    {
        self.words.next_word()
    }

    // A value of the type that the caller wants, from as many words as it takes.
    pub fn next<F: Field>(&mut self) -> Result<F, Malformed>
        ensures { F.reads self.old.words result self.new.words }
    {
        F::read(&mut self.words)
    }

    // The last value, behind which the line ends.
    pub fn last<F: Field + Drop>(&mut self) -> Result<F, Malformed>
        ensures { IfOk result (λ x. F.reads self.old.words (Ok x) None) }
    {
        let value = self.next()?;
        self.end()?;
        Ok(value)
    }

    // Refuses a line with a word left.
    pub fn end(&self) -> Result<(), Malformed>
        ensures { result ≡ at_end self.now.words }
    {
        self.words.end()
    }

    // The text that is the rest of the line.
    pub fn text(self) -> Result<&'a [u8], Malformed>
        ensures { IfOk result (λ t. text_in self.entry.words ≡ Some t.now) }
    {
        let LineRest { mut words, scratch } = self;
        words.text(scratch)
    }

    // The same of a line that may have no text.
    pub fn optional_text(self) -> Result<Option<&'a [u8]>, Malformed>
        ensures { IfOk result (λ o. MatchOption o (self.entry.words ≡ None) (λ t. text_in self.entry.words ≡ Some t.now)) }
    {
        let LineRest { mut words, scratch } = self;
        if words.is_end() {
            return Ok(None);
        }
        Ok(Some(words.text(scratch)?))
    }
}
