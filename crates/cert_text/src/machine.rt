//! The machine that takes a line byte by byte.

ghost use Rattle.std.specs.Prelude.{◌≡◌, ◌==◌, false};
ghost use Rattle.cert_text.specs.Machine.{LeadsTo, byte_step};
ghost use Rattle.cert_text.specs.Kept.{KeptSpot};

use crate::digit::{is_digit_byte, take_digit, take_first_digit};
use crate::grammar::Grammar;
use crate::separators::{behind_number, next_end, next_last};
use crate::spot::{Draft, NumberAt, Spot, Standing};
use crate::words::{first_byte, first_mark_byte, mark_step, second_byte, word_step};
use std::alloc::AllocError;

/// A byte fits nowhere, or memory ran out.
#[derive(Clone, Copy)]
pub enum StepFault {
    Wrong,
    Memory,
}

impl From<AllocError> for StepFault {
    ghost use Rattle.std.specs.Prelude.{◌≡◌};
    ghost use Rattle.cert_text.specs.declared.machine.StepFault.TheVariants.{Memory};

    ghost from_gives = { λ _ e. e ≡ Memory };

    fn from(_: AllocError) -> StepFault {
        StepFault::Memory
    }
}

// Takes the byte behind a pair of a state and a space.
fn behind_pair(
    grammar: Grammar,
    draft: &Draft,
    spot: &mut Spot,
    parent: u64,
    job: u64,
    byte: u8,
) -> Result<(), StepFault>
    ensures { (s : Standing) → LeadsTo (byte_step grammar s draft.now (Spot.PairGap parent job) byte) result draft.now spot.new }
{
    if byte == b'|' {
        *spot = Spot::Barred { parent, job };
        Ok(())
    } else if draft.pairs.as_slice().len() < grammar.most_pairs {
        take_first_digit(spot, NumberAt::PairLo { parent, job }, byte)
    } else {
        Err(StepFault::Wrong)
    }
}

// Takes the byte behind the ends of a state and a space.
fn behind_end(
    grammar: Grammar,
    draft: &Draft,
    spot: &mut Spot,
    parent: u64,
    job: u64,
    byte: u8,
) -> Result<(), StepFault>
    ensures { (s : Standing) → LeadsTo (byte_step grammar s draft.now (Spot.EndGap parent job) byte) result draft.now spot.new }
{
    if byte == b'|' {
        *spot = Spot::Closed { parent, job };
        Ok(())
    } else if draft.ends.as_slice().len() < grammar.most_items {
        take_first_digit(spot, NumberAt::EndJob { parent, job }, byte)
    } else {
        Err(StepFault::Wrong)
    }
}

/// Takes one byte of a line, where it is no LF.
pub fn on_byte(
    grammar: Grammar,
    standing: Standing,
    draft: &mut Draft,
    spot: &mut Spot,
    byte: u8,
) -> Result<(), StepFault>
    requires no_lf { (byte == 10) ≡ false }
    requires kept { KeptSpot grammar draft.old spot.old }
    ensures { LeadsTo (byte_step grammar standing draft.old spot.old byte) result draft.new spot.new }
{
    match *spot {
        Spot::Start => first_byte(spot, standing, byte),
        Spot::Forked => second_byte(spot, byte),
        Spot::InWord { word, at } => word_step(grammar, spot, word, at, byte),
        Spot::Due { place } => take_first_digit(spot, place, byte),
        Spot::Digits { place, value } => {
            if is_digit_byte(byte) {
                take_digit(spot, place, value, (byte - b'0') as u64)
            } else {
                behind_number(grammar, draft, spot, place, value, byte)
            }
        }
        Spot::PairGap { parent, job } => behind_pair(grammar, draft, spot, parent, job, byte),
        Spot::Barred { parent, job } if byte == b' ' => {
            next_end(grammar, draft, spot, parent, job)
        }
        Spot::EndGap { parent, job } => behind_end(grammar, draft, spot, parent, job, byte),
        Spot::Closed { parent, job } if byte == b' ' => {
            next_last(grammar, draft, spot, parent, job)
        }
        Spot::Barred { .. } | Spot::Closed { .. } => Err(StepFault::Wrong),
        Spot::MarkDue { marked } => first_mark_byte(spot, marked, byte),
        Spot::InMark { marked, mark, at } => mark_step(spot, marked, mark, at, byte),
    }
}
