// Numbers and floats, from the words that write them.
ghost use Rattle.std.specs.Prelude.{◌≡◌, ◌+◌, ◌*◌, ◌^◌, ◌<◌, ◌≤◌, length};
ghost use Rattle.std.specs.Option.{SomeIff};
ghost use Rattle.std.specs.Str.Parse.{AllDigits, digits_value};
ghost use Rattle.std.specs.Char.{digit_value, is_ascii_digit};
ghost use Rattle.std.specs.List.{list_all};
ghost use Rattle.wording.specs.Numbers.{number_read, integer_read, integer_within, ReadsFloat};

use crate::malformed::Malformed;
use std::num::f32_from_bits_with_nan;

// The number with one more digit of this radix behind it; none where the byte is no such digit or the number has more than 64 bits.
fn appended(number: u64, byte: u8, radix: u32) -> Option<u64>
    requires low { 2 ≤ radix }
    requires high { radix ≤ 36 }
    ensures { SomeIff result ((digit_value byte < radix) × (number * radix + digit_value byte < 2 ^ 64)) (number * radix + digit_value byte) }
{
    let digit = char::from(byte).to_digit(radix)?;
    number
        .checked_mul(u64::from(radix))?
        .checked_add(u64::from(digit))
}

// The number that digits of this radix write; none where a byte is no such digit or the number has more than 64 bits.
fn written(digits: &[u8], radix: u32) -> Option<u64>
    requires low { 2 ≤ radix }
    requires high { radix ≤ 36 }
    ensures { SomeIff result (AllDigits radix digits.now × (digits_value radix digits.now < 2 ^ 64)) (digits_value radix digits.now) }
{
    let mut number = 0;
    for byte in digits {
        number = appended(number, *byte, radix)?;
    }
    Some(number)
}

// Whether a word has decimal digits alone.
fn all_digits(word: &[u8]) -> bool
    ensures { result ≡ list_all is_ascii_digit word.now }
{
    word.iter().all(|byte| byte.is_ascii_digit())
}

// The number of 64 bits that a word of decimal digits writes.
#[tactic(auto, using(crate::proofs::Numbers::all_digits, crate::proofs::Numbers::number_written))]
pub fn decimal(word: &[u8]) -> Result<u64, Malformed>
    ensures { result ≡ number_read 64 word.now }
{
    if word.is_empty() || !all_digits(word) {
        return Err(Malformed::NotANumber);
    }
    written(word, 10).ok_or(Malformed::OutOfRange)
}

// The number as one of 32 bits.
fn within(number: i128) -> Result<i32, Malformed>
    ensures { result ≡ integer_within number }
{
    i32::try_from(number).map_err(|_| Malformed::OutOfRange)
}

// The number of 32 bits that a word of decimal digits writes, which may have a minus sign in front.
pub fn integer(word: &[u8]) -> Result<i32, Malformed>
    ensures { result ≡ integer_read word.now }
{
    match word {
        [b'-', digits @ ..] => within(-i128::from(decimal(digits)?)),
        digits => within(i128::from(decimal(digits)?)),
    }
}

// The value of a hex digit, of either case.
pub fn hex_digit(byte: u8) -> Option<u32>
    ensures { SomeIff result (digit_value byte < 16) (digit_value byte) }
{
    char::from(byte).to_digit(16)
}

// The number of 32 bits that eight hex digits write.
#[tactic(auto, using(crate::proofs::Numbers::hex_small))]
fn hex_word(digits: &[u8]) -> Option<u32>
    ensures { SomeIff result ((length digits.now ≡ 8) × AllDigits 16 digits.now) (digits_value 16 digits.now) }
{
    if digits.len() != 8 {
        return None;
    }
    u32::try_from(written(digits, 16)?).ok()
}

// The float of whose bits a word writes the eight hex digits, behind 0x.
pub fn float(word: &[u8]) -> Result<f32, Malformed>
    ensures { ReadsFloat word.now result }
{
    let digits = word
        .strip_prefix(b"0x".as_slice())
        .ok_or(Malformed::NotAFloat)?;
    // In a closure, since std's function has no contract that is seen where it is passed by its name.
    hex_word(digits)
        .map(|bits| f32_from_bits_with_nan(bits))
        .ok_or(Malformed::NotAFloat)
}
