// What one word or more of a line can stand for.
ghost use Rattle.std.specs.Prelude.{ℕ, List, Option, Result, IfOk};
ghost use Rattle.script.specs.Fields.{ReadsCase, ReadsFloats, ReadsInteger, ReadsInterface, ReadsNumber, ReadsPair, ReadsSet, ReadsTriple, ReadsWord};
ghost use Rattle.wording.specs.declared.malformed.Malformed.{Malformed};

use ei::capability::DeviceCapability;
use ei::enums::NoSuchCase;
use ei::set::CapabilitySet;
use std::str::from_utf8;
use wording::{Malformed, Words, decimal, float, integer};

// A value that is read from the words of a line.
pub trait Field: Sized {
    // Holds of what is left of a line, each answer that `read` may give, and what is left then.
    ghost reads: { Option (List ℕ) → Result Self Malformed → Option (List ℕ) → Type 0 };

    fn read(words: &mut Words) -> Result<Self, Malformed>
        ensures { reads words.old result words.new };
}

impl Field for u64 {
    ghost reads = { ReadsNumber 64 };

    fn read(words: &mut Words) -> Result<u64, Malformed> {
        decimal(words.next_word()?)
    }
}

impl Field for u32 {
    ghost reads = { ReadsNumber 32 };

    fn read(words: &mut Words) -> Result<u32, Malformed> {
        u32::try_from(u64::read(words)?).map_err(|_| Malformed::OutOfRange)
    }
}

impl Field for i32 {
    ghost reads = { ReadsInteger };

    fn read(words: &mut Words) -> Result<i32, Malformed> {
        integer(words.next_word()?)
    }
}

impl Field for f32 {
    ghost reads = { ReadsFloats };

    fn read(words: &mut Words) -> Result<f32, Malformed> {
        float(words.next_word()?)
    }
}

// A case of an enum of the protocol, by its number.
#[derive(Drop)]
pub struct Case<N>(pub N);

impl<N: TryFrom<u32, Error = NoSuchCase> + Drop> Field for Case<N> {
    ghost reads = { ReadsCase N.try_from_gives };

    fn read(words: &mut Words) -> Result<Case<N>, Malformed> {
        let case = N::try_from(u32::read(words)?).map_err(|_| Malformed::NotInTable)?;
        Ok(Case(case))
    }
}

// A set of capabilities, by its number of seven bits.
impl Field for CapabilitySet {
    ghost reads = { ReadsWord ReadsSet };

    fn read(words: &mut Words) -> Result<CapabilitySet, Malformed> {
        CapabilitySet::from_bits(u64::read(words)?).ok_or(Malformed::NotInTable)
    }
}

// A capability, by the name of its interface; none for a name that no interface has.
impl Field for Option<DeviceCapability> {
    ghost reads = { ReadsInterface };

    fn read(words: &mut Words) -> Result<Option<DeviceCapability>, Malformed> {
        let word = words.next_word()?;
        // two returns, since that what is no text names no interface is proved at the first
        let Ok(name) = from_utf8(word) else {
            return Ok(None);
        };
        Ok(DeviceCapability::from_interface_name(name))
    }
}

impl<A: Field + Drop, B: Field> Field for (A, B) {
    ghost reads = { λ l r m. IfOk r (λ x. ReadsPair A.reads B.reads l x.0 x.1 m) };

    fn read(words: &mut Words) -> Result<(A, B), Malformed> {
        Ok((A::read(words)?, B::read(words)?))
    }
}

impl<A: Field + Drop, B: Field + Drop, C: Field> Field for (A, B, C) {
    ghost reads = { λ l r m. IfOk r (λ x. ReadsTriple A.reads B.reads C.reads l x.0 x.1 x.2 m) };

    fn read(words: &mut Words) -> Result<(A, B, C), Malformed> {
        Ok((A::read(words)?, B::read(words)?, C::read(words)?))
    }
}
