//! One number: its digits and its value; and the blanks at the ends of a field.

ghost use Rattle.std.specs.Prelude.{◌≡◌, ◌≤◌, ◌<◌, ◌^◌, ◌↔◌, IsTrue, length, MatchResult, MatchOption, reverse};
ghost use Rattle.csv_numbers.specs.Fields.{IsNumber, IsTooBig, Spells, bare, is_blank, value_of, without_blanks};
ghost use Rattle.csv_numbers.specs.RowFaults.{IsFaultOf};

use thiserror::Error;

// As many digits fit 64 bits, whichever they are.
const SHORT: usize = 19;

/// Why a text spells no number of 64 bits.
#[derive(Clone, Copy, Debug, PartialEq, Eq, Error)]
pub enum NumberFault {
    /// It is not one or more digits.
    #[error("no number")]
    NotNumber,
    /// Its value does not fit 64 bits.
    #[error("above 18446744073709551615")]
    TooBig,
}

// A space or a tab.
fn is_blank_byte(byte: u8) -> bool
    ensures { result ≡ is_blank byte }
{
    byte == b' ' || byte == b'\t'
}

// The text without the blanks at its start.
fn trimmed_front(text: &[u8]) -> &[u8]
    ensures { result.now ≡ without_blanks text.now }
{
    let mut text = text;
    'front: while let [first, rest @ ..] = text {
        if !is_blank_byte(*first) {
            break;
        }
        text = rest;
    }
    text
}

// The text without the blanks at its end.
fn trimmed_back(text: &[u8]) -> &[u8]
    ensures { result.now ≡ reverse (without_blanks (reverse text.now)) }
{
    let mut text = text;
    'back: while let [rest @ .., last] = text {
        if !is_blank_byte(*last) {
            break;
        }
        text = rest;
    }
    text
}

// Whether the text is one or more digits.
fn is_number(text: &[u8]) -> bool
    ensures { IsTrue result ↔ IsNumber text.now }
{
    !text.is_empty() && text.iter().all(|b| b.is_ascii_digit())
}

// The value of digits, where 64 bits hold it.
fn value(digits: &[u8]) -> Option<u64>
    requires { IsNumber digits.now }
    ensures { MatchOption result (2 ^ 64 ≤ value_of digits.now) (λ n. (value_of digits.now ≡ n)) }
{
    let mut value = 0u64;
    for digit in digits {
        value = value
            .checked_mul(10)?
            .checked_add(u64::from(*digit - b'0'))?;
    }
    Some(value)
}

// The number that a text of at most 19 bytes spells. No such number is too big.
fn read_short(text: &[u8]) -> Result<u64, NumberFault>
    requires { length text.now ≤ 19 }
    ensures { MatchResult result (Spells text.now) (IsFaultOf text.now) }
{
    if text.is_empty() {
        return Err(NumberFault::NotNumber);
    }
    let mut value = 0u64;
    for byte in text {
        if !byte.is_ascii_digit() {
            return Err(NumberFault::NotNumber);
        }
        value = value * 10 + u64::from(*byte - b'0');
    }
    Ok(value)
}

// The number that a text spells, which may be of any length.
fn read_long(text: &[u8]) -> Result<u64, NumberFault>
    ensures { MatchResult result (Spells text.now) (IsFaultOf text.now) }
{
    if !is_number(text) {
        return Err(NumberFault::NotNumber);
    }
    match value(text) {
        Some(number) => Ok(number),
        None => Err(NumberFault::TooBig),
    }
}

/// The number that a text spells: one or more ASCII digits and nothing else, with any number of zeros in front.
pub fn read_number(text: &[u8]) -> Result<u64, NumberFault>
    ensures { MatchResult result (Spells text.now) (IsFaultOf text.now) }
{
    if text.len() <= SHORT {
        read_short(text)
    } else {
        read_long(text)
    }
}

// The number that a field spells between its blanks.
pub(crate) fn read_field(field: &[u8]) -> Result<u64, NumberFault>
    ensures { MatchResult result (Spells (bare field.now)) (IsFaultOf (bare field.now)) }
{
    read_number(trimmed_back(trimmed_front(field)))
}
