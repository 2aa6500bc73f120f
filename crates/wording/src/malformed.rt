ghost use Rattle.std.specs.Prelude.{◌≡◌, Some};
ghost use Rattle.wording.specs.Refusing.{message};
ghost use Rattle.wording.specs.declared.malformed.Malformed.TheVariants.{NoMemory};

use std::alloc::AllocFailed;
use std::fmt;

// Why a line cannot be read.
#[derive(Clone, Copy, PartialEq, Eq, Debug)]
pub enum Malformed {
    UnknownWord,
    MissingWord,
    ExtraWord,
    NotANumber,
    OutOfRange,
    NotAFloat,
    BadText,
    NotInTable,
    NoMemory,
}

// Written out: a derive would put a library under the crate that stands on none.
impl fmt::Display for Malformed {
    ghost output = { λ malformed. Some (message malformed) };

    fn fmt<W: fmt::Write>(&self, f: &mut fmt::Formatter<W>) -> fmt::Result {
        match self {
            Malformed::UnknownWord => write!(f, "unknown call or event"),
            Malformed::MissingWord => write!(f, "a word is missing"),
            Malformed::ExtraWord => write!(f, "a word too many"),
            Malformed::NotANumber => write!(f, "not a decimal number"),
            Malformed::OutOfRange => write!(f, "number out of range"),
            Malformed::NotAFloat => write!(f, "not 0x and eight hex digits"),
            Malformed::BadText => write!(f, "not a text in double quotes"),
            Malformed::NotInTable => write!(f, "no value of its type has this number"),
            Malformed::NoMemory => write!(f, "no memory for the text"),
        }
    }
}

impl<T: Drop> From<AllocFailed<T>> for Malformed {
    ghost from_gives = { λ _ m. m ≡ NoMemory };

    fn from(_refused: AllocFailed<T>) -> Malformed {
        Self::NoMemory
    }
}
