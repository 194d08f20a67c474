//! The bytes of a piece, up to the end of a line.

ghost use Rattle.std.specs.Prelude.{◌≡◌, ◌==◌, ◌<◌, ◌≤◌, ◌^◌, false, length, take};
ghost use Rattle.cert_text.specs.Machine.{On, no_items, byte_step};
ghost use Rattle.cert_text.specs.Kept.{EndsPiece, KeptSpot, MovesSpot, TakesPiece};

use crate::digit::take_digits;
use crate::grammar::Grammar;
use crate::line::{CertLine, EndList, Numbers, Pairs};
use crate::line_end::end_line;
use crate::machine::{StepFault, on_byte};
use crate::spot::{Draft, Spot, Standing};
use crate::whole_lines::whole_line;
use crate::words::take_word;
use std::alloc::Global;

/// The byte with this index fits nowhere, or memory ran out.
#[derive(Clone, Copy)]
pub enum LineFault {
    Wrong(usize),
    Memory,
}

/// No items yet.
pub fn no_draft(alloc: Global) -> Draft
    ensures { result ≡ no_items }
{
    Draft {
        pairs: Pairs::new(alloc),
        ends: EndList::new(alloc),
        last: Numbers::new(alloc),
    }
}

/// What was taken of a piece.
#[derive(Drop)]
pub enum PieceEnd {
    /// All of it, and the line goes on.
    Part { count: usize },
    /// The bytes through the end of a line.
    Line { count: usize, line: CertLine },
}

// Takes what can be taken at once, a word or digits, and gives the number of bytes taken.
fn take_run(standing: Standing, spot: &mut Spot, bytes: &[u8]) -> usize
    ensures within { result ≤ length bytes.now }
    ensures leads { MovesSpot standing spot.old (take result bytes.now) spot.new }
{
    if let Spot::Digits { value, .. } = spot {
        take_digits(value, bytes)
    } else {
        take_word(standing, spot, bytes)
    }
}

// Takes the LF with this index in a piece.
fn take_lf(
    alloc: Global,
    grammar: Grammar,
    draft: &mut Draft,
    spot: &mut Spot,
    index: usize,
) -> Result<PieceEnd, LineFault>
    requires version { (grammar.version == 10) ≡ false }
    requires kept { KeptSpot grammar draft.old spot.old }
    requires index { index < 2 ^ 63 }
    ensures { (s : Standing) →
        EndsPiece (byte_step grammar s draft.old spot.old 10) index result draft.new spot.new }
{
    match end_line(alloc, grammar, draft, *spot) {
        Ok(line) => {
            *draft = no_draft(alloc);
            *spot = Spot::Start;
            Ok(PieceEnd::Line {
                count: index + 1,
                line,
            })
        }
        Err(StepFault::Wrong) => Err(LineFault::Wrong(index)),
        Err(StepFault::Memory) => Err(LineFault::Memory),
    }
}

/// Takes a piece through the end of the line.
pub fn take_piece(
    alloc: Global,
    grammar: Grammar,
    standing: Standing,
    draft: &mut Draft,
    spot: &mut Spot,
    piece: &[u8],
) -> Result<PieceEnd, LineFault>
    requires some { 0 < grammar.most_pairs }
    requires version { (grammar.version == 10) ≡ false }
    requires kept { KeptSpot grammar draft.old spot.old }
    ensures { TakesPiece grammar standing (On draft.old spot.old) piece.now result draft.new spot.new }
{
    if let Some(end) = whole_line(alloc, grammar, standing, *spot, piece) {
        return Ok(end);
    }
    let mut at = 0;
    while at < piece.len() {
        at += take_run(standing, spot, &piece[at..]);
        if at == piece.len() {
            break;
        }
        let byte = piece[at];
        if byte == b'\n' {
            return take_lf(alloc, grammar, draft, spot, at);
        }
        match on_byte(grammar, standing, draft, spot, byte) {
            Ok(()) => at += 1,
            Err(StepFault::Wrong) => return Err(LineFault::Wrong(at)),
            Err(StepFault::Memory) => return Err(LineFault::Memory),
        }
    }
    Ok(PieceEnd::Part { count: piece.len() })
}
