//! Files and sinks in memory, of which chosen calls fail.

ghost use Rattle.std.specs.Prelude.{◌≡◌, ℕ, ◌+◌, ◌-◌, ◌<◌, ◌≤◌, ◌^◌, List, [], length, take, drop, min, Some, None, IfOk, vec_len, vec_capacity, true, false};
ghost use Rattle.sag_edge.specs.Contents.{bytes_at, left_of};
ghost use Rattle.sag_edge.specs.Reading.{SeenFiles};
ghost use Rattle.sag_edge.specs.Writing.{SeenSink};

use crate::names::{FileBytes, FileName, find_bytes};
use crate::reading::{Failed, Files};
use crate::writing::Sink;
use std::alloc::{AllocError, Global};

/// Copies bytes to the front of a piece: as many as both have, and at most `most`.
fn give(rest: &[u8], into: &mut [u8], most: usize) -> usize
    ensures count { result ≡ min most (min (length rest.now) (length into.new)) }
    ensures bytes { take result into.new ≡ take result rest.now }
{
    let count = most.min(rest.len().min(into.len()));
    into[..count].copy_from_slice(&rest[..count]);
    count
}

/// Gives the next bytes of the named file, of which `place` were given before.
pub(crate) fn give_from(
    files: &[(FileName, FileBytes)],
    name: &FileName,
    place: usize,
    into: &mut [u8],
    most: usize,
) -> usize
    ensures count { result ≡ min most (min (length (bytes_at files.now name.now) - place) (length into.new)) }
    ensures bytes { take result into.new ≡ take result (drop place (bytes_at files.now name.now)) }
    ensures fits { place + result < 2 ^ 64 }
{
    match find_bytes(files, name) {
        Some(bytes) if place < bytes.len() => give(&bytes[place..], into, most),
        _ => 0,
    }
}

/// Files in memory, with calls that fail. Each read gives at most `most` bytes, and a name that is not held is a
/// fault.
#[derive(Drop)]
pub struct MemFiles {
    files: Vec<(FileName, FileBytes)>,
    most: usize,
    failing: Vec<(FileName, u64)>,
    current: Option<FileName>,
    place: usize,
    reads: u64,
    blamed: Option<FileName>,
    faults: u64,
    ghost gives: { 1 ≤ most },
}

/// Whether the call of that number fails for that name: 0 is `begin`, and reads count from 1.
fn is_listed(failing: &[(FileName, u64)], name: &FileName, call: u64) -> bool {
    failing.iter().any(|fault| fault.1 == call && fault.0.as_str() == name.as_str())
}

impl MemFiles {
    /// Holds these files; where a name stands twice, its first pair counts. In `faults`, (name, 0) makes each
    /// `begin` of that name fail, and (name, k) the k-th read of it since its `begin`.
    pub fn new(
        files: Vec<(FileName, FileBytes)>,
        most: usize,
        faults: Vec<(FileName, u64)>,
    ) -> MemFiles
        requires { 1 ≤ most }
        ensures { ⟦<MemFiles as Files>⟧.seen result ≡
            record { contents = Some files.items; left = Some []; current = None; blamed = None; faults = 0 } }
    {
        MemFiles {
            files,
            most,
            failing: faults,
            current: None,
            place: 0,
            reads: 0,
            blamed: None,
            faults: 0,
        }
    }
}

impl Files for MemFiles {
    ghost seen = { λ s. record {
      contents = Some s.files.items;
      left = Some (left_of s.files.items s.current s.place);
      current = s.current;
      blamed = s.blamed;
      faults = s.faults;
    } };

    fn begin(&mut self, name: FileName) -> Result<(), Failed> {
        if find_bytes(&self.files, &name).is_none() || is_listed(&self.failing, &name, 0) {
            self.faults = self.faults.saturating_add(1);
            self.current = None;
            self.blamed = Some(name);
            return Err(Failed);
        }
        self.current = Some(name);
        self.place = 0;
        self.reads = 0;
        Ok(())
    }

    fn read(&mut self, into: &mut [u8]) -> Result<usize, Failed> {
        self.reads = self.reads.saturating_add(1);
        match self.current.take() {
            Some(name) if !is_listed(&self.failing, &name, self.reads) => {
                let count = give_from(&self.files, &name, self.place, into, self.most);
                self.place += count;
                self.current = Some(name);
                Ok(count)
            }
            name => {
                self.faults = self.faults.saturating_add(1);
                self.blamed = name;
                Err(Failed)
            }
        }
    }
}

/// A sink in memory, with calls that fail. Without room, a write of a piece that has bytes is a fault.
#[derive(Drop)]
pub struct MemSink {
    taken: Vec<u8>,
    room: usize,
    most: usize,
    failing: Vec<u64>,
    calls: u64,
    faults: u64,
    finished: bool,
    ghost goes: { 1 ≤ most },
    ghost within: { vec_len taken ≤ room },
    ghost has_room: { room ≤ vec_capacity taken },
}

impl MemSink {
    /// Has room for `room` bytes, taken from memory now, and takes at most `most` bytes a write. Calls of
    /// `write` and `finish` are counted together, from 1: those whose numbers stand in `faults` fail.
    pub fn new(
        alloc: Global,
        room: usize,
        most: usize,
        faults: Vec<u64>,
    ) -> Result<MemSink, AllocError>
        requires { 1 ≤ most }
        ensures { IfOk result (λ sink. ⟦<MemSink as Sink>⟧.seen sink ≡
            record { taken = Some []; room = room; finished = false; faults = 0 }) }
    {
        let taken = Vec::with_capacity(alloc, room)?;
        Ok(MemSink {
            taken,
            room,
            most,
            failing: faults,
            calls: 0,
            faults: 0,
            finished: false,
        })
    }

    /// The bytes taken.
    pub fn bytes(&self) -> &[u8]
        ensures { (⟦<MemSink as Sink>⟧.seen self.now).taken ≡ Some result.now }
    {
        self.taken.as_slice()
    }

    /// Counts a call, and says whether it fails.
    fn is_failing(&mut self) -> bool
        ensures { self.new ≡ record self.old { calls = self.new.calls } }
    {
        self.calls = self.calls.saturating_add(1);
        self.failing.contains(&self.calls)
    }
}

impl Sink for MemSink {
    ghost seen = { λ s. record {
      taken = Some s.taken.items;
      room = s.room;
      finished = s.finished;
      faults = s.faults;
    } };

    /// Takes as many bytes as one write takes, as there is room for, and as there are.
    fn write(&mut self, bytes: &[u8]) -> Result<usize, Failed> {
        let count = bytes.len().min(self.most).min(self.room - self.taken.len());
        if self.is_failing() || (count == 0 && !bytes.is_empty()) {
            self.faults = self.faults.saturating_add(1);
            return Err(Failed);
        }
        self.taken.extend_from_slice(&bytes[..count]).unwrap();
        if count > 0 {
            self.finished = false;
        }
        Ok(count)
    }

    fn finish(&mut self) -> Result<(), Failed> {
        if self.is_failing() {
            self.faults = self.faults.saturating_add(1);
            return Err(Failed);
        }
        self.finished = true;
        Ok(())
    }
}
