//! Lines that refuse a file, a row or a field.

ghost use Rattle.sag_edge.specs.Writing.{Puts};
ghost use Rattle.sag_texts.specs.FaultTexts.{field_refusal, refusal, repeat_refusal, row_refusal};
ghost use Rattle.sag_texts.specs.Pieces.{piece_texts};

use crate::FileKind;
use crate::piece::Piece::{self, File, Number, Words};
use crate::piece::{write_line, write_pieces};
use sag_edge::{Failed, Sink};

/// Refuses a file.
pub(crate) fn refuse<S: Sink>(sink: &mut S, file: FileKind, why: &[Piece]) -> Result<(), Failed>
    ensures { Puts (S.seen sink.old) (S.seen sink.new) (refusal file (piece_texts why.now)) result }
{
    write_pieces(sink, &[Words("refused "), File(file)])?;
    write_line(sink, why)
}

/// Refuses a row of a file.
pub(crate) fn refuse_row<S: Sink>(
    sink: &mut S,
    file: FileKind,
    row: u64,
    why: &[Piece],
) -> Result<(), Failed>
    ensures { Puts (S.seen sink.old) (S.seen sink.new) (row_refusal file row (piece_texts why.now)) result }
{
    write_pieces(
        sink,
        &[Words("refused "), File(file), Words(" row "), Number(row)],
    )?;
    write_line(sink, why)
}

/// Refuses a field of a row.
#[tactic(auto, unfolding(crate::specs::FaultTexts::field_refusal))]
pub(crate) fn refuse_field<S: Sink>(
    sink: &mut S,
    file: FileKind,
    row: u64,
    column: u8,
    why: &'static str,
) -> Result<(), Failed>
    ensures { Puts (S.seen sink.old) (S.seen sink.new) (field_refusal file row column why.now) result }
{
    let column = u64::from(column);
    refuse_row(
        sink,
        file,
        row,
        &[Words(" column "), Number(column), Words(why)],
    )
}

/// Refuses a row for the IDs of an earlier one.
#[tactic(auto, unfolding(crate::specs::FaultTexts::repeat_refusal))]
pub(crate) fn refuse_repeat<S: Sink>(
    sink: &mut S,
    file: FileKind,
    row: u64,
    earlier: u64,
) -> Result<(), Failed>
    ensures { Puts (S.seen sink.old) (S.seen sink.new) (repeat_refusal file row earlier) result }
{
    refuse_row(sink, file, row, &[Words(" repeats row "), Number(earlier)])
}
