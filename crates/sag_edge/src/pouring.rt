//! A file that is handed on piece by piece as it is read.

ghost use Rattle.std.specs.Prelude.{◌≡◌, ◌+◌, ◌<◌, ◌≤◌, ◌++◌, ◌^◌, ℕ, List, length, IfOk, IfSome, IsErrOf, IsSome, OnOk, Some};
ghost use Rattle.std.specs.Io.KnownBytes.{IsAtEnd};
ghost use Rattle.sag_edge.specs.Causes.{Rose};
ghost use Rattle.sag_edge.specs.Contents.{bytes_at};
ghost use Rattle.sag_edge.specs.Reading.{Blames, HandsOn, HasRead, SeenFiles};

use crate::names::FileName;
use crate::reading::{Files, PIECE, ReadAnswer, zeros};
use std::alloc::{AllocError, Global};

/// What takes the bytes of a file piece by piece.
pub trait TakePiece {
    /// How many bytes it took, or more.
    ghost count: { Self → ℕ };

    /// From the first value it came to the second by taking these bytes.
    ghost takes: { Self → List ℕ → Self → Type 0 };

    /// Takes the next bytes. Where there is no memory, the value is of no more use.
    fn take_piece(&mut self, piece: &[u8]) -> Result<(), AllocError>
        requires few { count self.old + length piece.now < 2 ^ 62 }
        ensures count { OnOk result (count self.new ≤ count self.old + length piece.now) }
        ensures takes { OnOk result ((start : Self) (bytes : List ℕ)
            → takes start bytes self.old → takes start (bytes ++ piece.now) self.new) };
}

/// Reads at most `most` bytes, and hands them on. Ok gives how many: none at the end of the file.
fn pour_piece<F: Files, T: TakePiece>(
    files: &mut F,
    piece: &mut [u8],
    most: usize,
    taker: &mut T,
) -> Result<usize, ReadAnswer>
    requires current { IsSome (F.seen files.old).current }
    requires room { 0 < most }
    requires fits { most ≤ length piece.old }
    requires few { T.count taker.old + most < 2 ^ 62 }
    ensures contents { (F.seen files.new).contents ≡ (F.seen files.old).contents }
    ensures later { (F.seen files.old).faults ≤ (F.seen files.new).faults }
    ensures piece { length piece.new ≡ length piece.old }
    ensures bound { IfOk result (λ n. n ≤ most) }
    ensures count { IfOk result (λ n. T.count taker.new ≤ T.count taker.old + n) }
    ensures end { IfOk result (λ n. n ≡ 0 → IsAtEnd (F.seen files.new).left) }
    ensures read { IfOk result (λ n. HandsOn n (F.seen files.old) (F.seen files.new)
        (λ start bytes. T.takes start bytes taker.old) (λ start bytes. T.takes start bytes taker.new)) }
    ensures fault { IsErrOf result ReadAnswer.ReadFault →
        Rose (F.seen files.old).faults (F.seen files.new).faults
        × Blames (F.seen files.new) (F.seen files.old).current }
    ensures short { ¬ IsErrOf result ReadAnswer.TooLong }
{
    let part = &mut piece[..most];
    match files.read(part) {
        Err(_) => Err(ReadAnswer::ReadFault),
        Ok(count) => match taker.take_piece(&part[..count]) {
            Ok(()) => Ok(count),
            Err(_) => Err(ReadAnswer::Memory),
        },
    }
}

/// Reads the whole of a file, of at most `limit` bytes, and hands on its pieces as they come.
///
/// It reads to the end of the file, or to one byte above the limit, whatever the taker makes of the bytes; only its want of
/// memory stops the reading. So a read fault and a file that is too long are told before anything that the bytes say. The source
/// stays where the reading stopped; of a taker whose bytes did not all come nothing is said.
pub fn pour<F: Files, T: TakePiece>(
    alloc: Global,
    files: &mut F,
    name: FileName,
    limit: u64,
    taker: &mut T,
) -> Result<(), ReadAnswer>
    requires limit { limit ≤ 2 ^ 40 }
    requires few { T.count taker.old ≤ 2 ^ 61 }
    ensures contents { (F.seen files.new).contents ≡ (F.seen files.old).contents }
    ensures later { (F.seen files.old).faults ≤ (F.seen files.new).faults }

    // What was handed on is the whole file, within the limit.
    ensures ok { OnOk result ((bytes : List ℕ) × (length bytes ≤ limit)
        × IfSome (F.seen files.old).contents (λ m. bytes ≡ bytes_at m name)
        × ((start : T) (before : List ℕ) → T.takes start before taker.old → T.takes start (before ++ bytes) taker.new)) }
    ensures too_long { IsErrOf result ReadAnswer.TooLong →
        IfSome (F.seen files.old).contents (λ m. limit < length (bytes_at m name)) }
    ensures fault { IsErrOf result ReadAnswer.ReadFault →
        Rose (F.seen files.old).faults (F.seen files.new).faults × Blames (F.seen files.new) (Some name) }
{
    let Ok(()) = files.begin(name) else {
        return Err(ReadAnswer::ReadFault);
    };
    let mut piece = zeros(alloc, PIECE)?;
    let mut room = limit + 1;
    while room > 0 {
        let most = PIECE.min(room as usize);
        match pour_piece(files, &mut piece, most, taker) {
            Ok(0) => return Ok(()),
            Ok(count) => room -= count as u64,
            Err(answer) => return Err(answer),
        }
    }
    Err(ReadAnswer::TooLong)
}
