//! Texts that are written piece by piece, so that they take no memory.

ghost use Rattle.std.specs.Prelude.{◌≡◌};
ghost use Rattle.std.specs.List.{concat};
ghost use Rattle.sag_edge.specs.Writing.{Puts};
ghost use Rattle.sag_texts.specs.FaultTexts.{file_word, line};
ghost use Rattle.sag_texts.specs.Pieces.{piece_text, piece_texts};

use crate::FileKind;
use itoa::Buffer;
use sag_edge::{Failed, Sink, write_whole};

/// A piece of a text.
#[derive(Clone, Copy)]
pub(crate) enum Piece {
    Words(&'static str),
    File(FileKind),
    Number(u64),
}

impl FileKind {
    /// The word for the file.
    fn as_str(self) -> &'static str
        ensures { result.now ≡ file_word self }
    {
        match self {
            FileKind::Jobs => "jobs",
            FileKind::Scenario => "scenario",
            FileKind::Precedence => "precedence",
            FileKind::Certificate => "certificate",
            FileKind::Run => "run",
            FileKind::Tasks => "tasks",
            FileKind::Edits => "edits",
        }
    }
}

// Writes a piece.
fn write_piece<S: Sink>(sink: &mut S, piece: Piece) -> Result<(), Failed>
    ensures { Puts (S.seen sink.old) (S.seen sink.new) (piece_text piece) result }
{
    match piece {
        Piece::Words(text) => write_whole(sink, text.as_bytes()),
        Piece::File(file) => write_whole(sink, file.as_str().as_bytes()),
        Piece::Number(n) => write_whole(sink, Buffer::new().format(n).as_bytes()),
    }
}

/// Writes pieces one after another.
pub(crate) fn write_pieces<S: Sink>(sink: &mut S, pieces: &[Piece]) -> Result<(), Failed>
    ensures { Puts (S.seen sink.old) (S.seen sink.new) (concat (piece_texts pieces.now)) result }
{
    for piece in pieces {
        write_piece(sink, *piece)?;
    }
    Ok(())
}

/// Writes pieces as a line.
pub(crate) fn write_line<S: Sink>(sink: &mut S, pieces: &[Piece]) -> Result<(), Failed>
    ensures { Puts (S.seen sink.old) (S.seen sink.new) (line (piece_texts pieces.now)) result }
{
    write_pieces(sink, pieces)?;
    write_whole(sink, b"\n")
}
