//! The digits of a number.

ghost use Rattle.std.specs.Prelude.{◌≡◌, ◌<◌, ◌≤◌, take, length, IsTrue};
ghost use Rattle.cert_text.specs.Grammar.{IsCertNumber};
ghost use Rattle.cert_text.specs.Machine.{LeadsTo, is_digit, digit, first_digit};
ghost use Rattle.cert_text.specs.Kept.{DigitsLead};

use crate::grammar::MOST_NUMBER;
use crate::machine::StepFault;
use crate::spot::{Draft, NumberAt, Spot};

/// Whether a byte is a digit.
pub fn is_digit_byte(byte: u8) -> bool
    ensures same { result ≡ is_digit byte }
    ensures range { IsTrue result → (48 ≤ byte) × (byte ≤ 57) }
{
    b'0' <= byte && byte <= b'9'
}

/// Takes the first digit of a number.
pub fn take_first_digit(spot: &mut Spot, place: NumberAt, byte: u8) -> Result<(), StepFault>
    ensures { (d : Draft) → LeadsTo (first_digit d place byte) result d spot.new }
{
    if is_digit_byte(byte) {
        *spot = Spot::Digits {
            place,
            value: (byte - b'0') as u64,
        };
        Ok(())
    } else {
        Err(StepFault::Wrong)
    }
}

/// Takes a further digit of a number, where it fits.
pub fn take_digit(spot: &mut Spot, place: NumberAt, value: u64, x: u64) -> Result<(), StepFault>
    requires value { IsCertNumber value }
    requires x { x < 10 }
    ensures { (d : Draft) → LeadsTo (digit d place value x) result d spot.new }
{
    if value == 0 {
        return Err(StepFault::Wrong);
    }
    if value > MOST_NUMBER / 10 {
        return Err(StepFault::Wrong);
    }
    let next = value * 10 + x;
    if next > MOST_NUMBER {
        return Err(StepFault::Wrong);
    }
    *spot = Spot::Digits { place, value: next };
    Ok(())
}

/// Takes a run of further digits, as long as any digit fits, and gives their count.
pub fn take_digits(number: &mut u64, bytes: &[u8]) -> usize
    ensures within { result ≤ length bytes.now }
    ensures leads { DigitsLead number.old (take result bytes.now) number.new }
{
    let mut value = *number;
    let mut count = 0;
    for byte in bytes {
        if !is_digit_byte(*byte) || value == 0 || value >= MOST_NUMBER / 10 {
            break;
        }
        value = value * 10 + (*byte - b'0') as u64;
        count += 1;
    }
    *number = value;
    count
}
