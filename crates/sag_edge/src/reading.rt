//! Files that are read, and the reading of a whole file.

ghost use Rattle.std.specs.Prelude.{◌≡◌, ℕ, ◌+◌, ◌-◌, ◌*◌, ◌^◌, ◌<◌, ◌≤◌, List, length, take, IsSome, IfSome, IfOk, OnOk, OnErr, IsErrOf, vec_len, Some};
ghost use Rattle.std.specs.Io.{ReadsAtMost};
ghost use Rattle.sag_edge.specs.Causes.{HasCause, Rose};
ghost use Rattle.sag_edge.specs.Contents.{bytes_at};
ghost use Rattle.sag_edge.specs.Reading.{SeenFiles, BeginsAt, Blames, ReadsBytes, HasRead};
ghost use Rattle.std.specs.Io.KnownBytes.{IsAtEnd};
ghost use Rattle.sag_edge.specs.declared.reading.ReadAnswer.TheVariants as answer;

use crate::names::FileName;
use std::alloc::{AllocError, Global};

/// A call that failed, and was counted as a fault.
#[derive(Clone, Copy, Debug, PartialEq, Eq)]
pub struct Failed;

/// A source of files, each read from its first byte on.
///
/// A source may tell its files, as one in memory does, or not, as the machine's. It always tells how many of
/// its calls failed, which file is current, and the blamed name: the file at which the latest failed call
/// failed. No call changes a file.
pub trait Files {
    ghost seen: { Self → SeenFiles };

    /// Makes the named file current, at its first byte. After `Failed` no file is current.
    fn begin(&mut self, name: FileName) -> Result<(), Failed>
        ensures contents { (seen self.new).contents ≡ (seen self.old).contents }
        ensures cause { HasCause (seen self.old).faults (seen self.new).faults result }
        ensures ok { OnOk result (BeginsAt (seen self.old) (seen self.new) name) }
        ensures failed { OnErr result (Blames (seen self.new) (Some name)) };

    /// Puts the next bytes of the current file at the front of `into`, and gives how many: fewer than it has
    /// room for at any place in the file, and 0 (into a piece with room) at the end of the file alone. After
    /// `Failed` no file is current, and the piece may hold anything.
    fn read(&mut self, into: &mut [u8]) -> Result<usize, Failed>
        requires { IsSome (seen self.old).current }
        ensures contents { (seen self.new).contents ≡ (seen self.old).contents }
        ensures cause { HasCause (seen self.old).faults (seen self.new).faults result }
        ensures bound { ReadsAtMost result into.new }
        ensures ok { IfOk result (λ n. ReadsBytes (seen self.old) (seen self.new) (take n into.new) (length into.new)) }
        ensures failed { OnErr result (Blames (seen self.new) (seen self.old).current) };
}

/// Why a file was not read whole.
#[derive(Clone, Copy, Debug, PartialEq, Eq)]
pub enum ReadAnswer {
    /// A call of the source failed, and was counted; the file is the blamed one.
    ReadFault,
    /// The file has more bytes than the limit.
    TooLong,
    /// Want of memory.
    Memory,
}

impl From<AllocError> for ReadAnswer {
    ghost from_gives = { λ _ e. e ≡ answer.Memory };

    fn from(_: AllocError) -> ReadAnswer {
        ReadAnswer::Memory
    }
}

/// How many bytes one read asks for at most.
pub(crate) const PIECE: usize = 65_536;

/// A list of so many zeros, which reads write over.
pub(crate) fn zeros(alloc: Global, count: usize) -> Result<Vec<u8>, AllocError>
    ensures { IfOk result (λ list. vec_len list ≡ count) }
{
    vec![in alloc; 0u8; count]
}

/// Reads at most `most` bytes onto the end of the list. Ok gives how many: none at the end of the file.
fn read_piece<F: Files>(
    files: &mut F,
    piece: &mut [u8],
    most: usize,
    list: &mut Vec<u8>,
) -> Result<usize, ReadAnswer>
    requires current { IsSome (F.seen files.old).current }
    requires room { 0 < most }
    requires fits { most ≤ length piece.old }
    ensures contents { (F.seen files.new).contents ≡ (F.seen files.old).contents }
    ensures later { (F.seen files.old).faults ≤ (F.seen files.new).faults }
    ensures count { IfOk result (λ n. (n ≤ most) × (vec_len list.new ≡ vec_len list.old + n)) }
    ensures end { IfOk result (λ n. n ≡ 0 → IsAtEnd (F.seen files.new).left) }
    ensures read { OnOk result ((start : SeenFiles) (name : List ℕ) →
        HasRead start (F.seen files.old) name list.old.items → HasRead start (F.seen files.new) name list.new.items) }
    ensures fault { IsErrOf result ReadAnswer.ReadFault →
        Rose (F.seen files.old).faults (F.seen files.new).faults
        × Blames (F.seen files.new) (F.seen files.old).current }
    ensures memory { IsErrOf result ReadAnswer.Memory →
        (start : SeenFiles) (name : List ℕ) → HasRead start (F.seen files.old) name list.old.items →
        ((taken : List ℕ) × (length taken ≤ vec_len list.old + most)
        × HasRead start (F.seen files.new) name taken) }
    ensures short { ¬ IsErrOf result ReadAnswer.TooLong }
{
    let part = &mut piece[..most];
    match files.read(part) {
        Err(_) => Err(ReadAnswer::ReadFault),
        Ok(count) => match list.extend_from_slice(&part[..count]) {
            Ok(()) => Ok(count),
            Err(_) => Err(ReadAnswer::Memory),
        },
    }
}

/// Reads the whole of a file, of at most `limit` bytes.
///
/// It reads to the end of the file, or to one byte above the limit. The source stays where the reading
/// stopped: in the file, but for `ReadFault`, after which no file is current.
pub fn read_all<F: Files>(
    alloc: Global,
    files: &mut F,
    name: FileName,
    limit: u64,
) -> Result<Vec<u8>, ReadAnswer>
    requires { limit ≤ 2 ^ 40 }
    ensures contents { (F.seen files.new).contents ≡ (F.seen files.old).contents }
    ensures later { (F.seen files.old).faults ≤ (F.seen files.new).faults }

    // What is given is the whole file, within the limit.
    ensures ok { IfOk result (λ list. IfSome (F.seen files.old).contents (λ m. list.items ≡ bytes_at m name)) }
    ensures within { IfOk result (λ list. vec_len list ≤ limit) }
    ensures too_long { IsErrOf result ReadAnswer.TooLong →
        IfSome (F.seen files.old).contents (λ m. limit < length (bytes_at m name)) }
    ensures fault { IsErrOf result ReadAnswer.ReadFault →
        Rose (F.seen files.old).faults (F.seen files.new).faults × Blames (F.seen files.new) (Some name) }

    // Without a fault the file stays current, and at most one byte more than the limit is taken of it.
    ensures stops { ¬ IsErrOf result ReadAnswer.ReadFault →
        ((taken : List ℕ) × (length taken ≤ limit + 1)
        × HasRead (F.seen files.old) (F.seen files.new) name taken) }
{
    let Ok(()) = files.begin(name) else {
        return Err(ReadAnswer::ReadFault);
    };
    let mut list = Vec::new(alloc);
    let mut piece = zeros(alloc, PIECE)?;
    let mut room = limit + 1;
    while room > 0 {
        let most = PIECE.min(room as usize);
        match read_piece(files, &mut piece, most, &mut list) {
            Ok(0) => return Ok(list),
            Ok(count) => room -= count as u64,
            Err(answer) => return Err(answer),
        }
    }
    Err(ReadAnswer::TooLong)
}
