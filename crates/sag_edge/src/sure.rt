//! Files and sinks in memory that never fail.

ghost use Rattle.std.specs.Prelude.{◌≡◌, ◌==◌, ℕ, ◌+◌, ◌-◌, ◌<◌, ◌≤◌, ◌^◌, List, [], length, take, drop, min, Some, None, IfOk, vec_len, vec_capacity, true, false, if◌then◌else◌};
ghost use Rattle.sag_edge.specs.Contents.{bytes_at, left_of};
ghost use Rattle.sag_edge.specs.Reading.{SeenFiles};
ghost use Rattle.sag_edge.specs.Writing.{SeenSink};

use crate::memory::give_from;
use crate::names::{FileBytes, FileName};
use crate::reading::{Failed, Files};
use crate::writing::Sink;
use std::alloc::{AllocError, Global};

/// Files in memory that never fail. A name that is not held is an empty file.
#[derive(Drop)]
pub struct SureFiles {
    files: Vec<(FileName, FileBytes)>,
    current: Option<FileName>,
    place: usize,
}

impl SureFiles {
    /// Holds these files; where a name stands twice, its first pair counts.
    pub fn new(files: Vec<(FileName, FileBytes)>) -> SureFiles
        ensures { ⟦<SureFiles as Files>⟧.seen result ≡
            record { contents = Some files.items; left = Some []; current = None; blamed = None; faults = 0 } }
    {
        SureFiles {
            files,
            current: None,
            place: 0,
        }
    }
}

impl Files for SureFiles {
    ghost seen = { λ s. record {
      contents = Some s.files.items;
      left = Some (left_of s.files.items s.current s.place);
      current = s.current;
      blamed = None;
      faults = 0;
    } };

    fn begin(&mut self, name: FileName) -> Result<(), Failed> {
        self.current = Some(name);
        self.place = 0;
        Ok(())
    }

    fn read(&mut self, into: &mut [u8]) -> Result<usize, Failed> {
        let count = match &self.current {
            Some(name) => give_from(&self.files, name, self.place, into, usize::MAX),
            None => 0,
        };
        self.place += count;
        Ok(count)
    }
}

/// A sink in memory that never fails. It keeps and tells its bytes while they are within its room; of bytes
/// beyond it, only their number is kept.
#[derive(Drop)]
pub struct SureSink {
    taken: Vec<u8>,
    room: usize,
    beyond: u64,
    finished: bool,
    ghost within: { vec_len taken ≤ room },
    ghost has_room: { room ≤ vec_capacity taken },
}

impl SureSink {
    /// Has room for `room` bytes, taken from memory now.
    pub fn new(alloc: Global, room: usize) -> Result<SureSink, AllocError>
        ensures { IfOk result (λ sink. ⟦<SureSink as Sink>⟧.seen sink ≡
            record { taken = Some []; room = room; finished = false; faults = 0 }) }
    {
        let taken = Vec::with_capacity(alloc, room)?;
        Ok(SureSink {
            taken,
            room,
            beyond: 0,
            finished: false,
        })
    }
}

impl Sink for SureSink {
    ghost seen = { λ s. record {
      taken = (if s.beyond == 0 then Some s.taken.items else None);
      room = s.room;
      finished = s.finished;
      faults = 0;
    } };

    /// Takes all of the bytes.
    fn write(&mut self, bytes: &[u8]) -> Result<usize, Failed> {
        let count = bytes.len().min(self.room - self.taken.len());
        self.taken.extend_from_slice(&bytes[..count]).unwrap();
        self.beyond = self.beyond.saturating_add((bytes.len() - count) as u64);
        if !bytes.is_empty() {
            self.finished = false;
        }
        Ok(bytes.len())
    }

    fn finish(&mut self) -> Result<(), Failed> {
        self.finished = true;
        Ok(())
    }
}
