//! Reading a file whole, and handing on a file as it is read.

ghost use Rattle.std.specs.Prelude.{◌≡◌, ℕ, ◌≤◌, ◌^◌, List};
ghost use Rattle.sag_engine.specs.Plan.{file_plan};
ghost use Rattle.sag_engine.specs.RunEnds.{Follows, Pours};

use crate::halt::{Halt, Refusal};
use sag_edge::{FileName, Files, ReadAnswer, TakePiece, pour, read_all};
use sag_texts::{Fault, FileKind};
use std::alloc::Global;

/// The most bytes of a job, precedence, scenario, run, task or edit file.
pub const MOST_FILE_BYTES: u64 = 16_777_216;

/// The most bytes of a certificate: 2^40.
pub const MOST_CERTIFICATE_BYTES: u64 = 1_099_511_627_776;

/// Reads a file whole.
pub(crate) fn fetch<F: Files>(
    alloc: Global,
    files: &mut F,
    kind: FileKind,
    name: FileName,
    limit: u64,
) -> Result<Vec<u8>, Halt>
    requires { limit ≤ 2 ^ 40 }
    ensures { Follows (λ list. list.items) (file_plan kind name limit)
        (F.seen files.old) (F.seen files.new) result }
{
    match read_all(alloc, files, name, limit) {
        Ok(list) => Ok(list),
        Err(ReadAnswer::ReadFault) => Err(Halt::Read(kind)),
        Err(ReadAnswer::TooLong) => Err(Halt::Refused(Refusal::new(Fault::TooLong(kind)))),
        Err(ReadAnswer::Memory) => Err(Halt::Memory),
    }
}

/// Reads a file, and hands on its pieces as they come.
pub(crate) fn pour_file<F: Files, T: TakePiece>(
    alloc: Global,
    files: &mut F,
    kind: FileKind,
    name: FileName,
    limit: u64,
    taker: &mut T,
) -> Result<(), Halt>
    requires limit { limit ≤ 2 ^ 40 }
    requires few { T.count taker.old ≤ 2 ^ 61 }
    ensures { Pours (file_plan kind name limit) (F.seen files.old) (F.seen files.new) result
        (λ start bytes. T.takes start bytes taker.old) (λ start bytes. T.takes start bytes taker.new) }
{
    match pour(alloc, files, name, limit, taker) {
        Ok(()) => Ok(()),
        Err(ReadAnswer::ReadFault) => Err(Halt::Read(kind)),
        Err(ReadAnswer::TooLong) => Err(Halt::Refused(Refusal::new(Fault::TooLong(kind)))),
        Err(ReadAnswer::Memory) => Err(Halt::Memory),
    }
}
