//! The files and streams of the machine: the edge, where what is read and written is trusted.
//!
//! A call that the system interrupted is a fault like any other: nothing is tried again, so every call ends.

ghost use Rattle.std.specs.Prelude.{◌≡◌, ℕ, None, false};
ghost use Rattle.std.specs.Option.{option_map};
ghost use Rattle.sag_edge.specs.Reading.{SeenFiles};
ghost use Rattle.sag_edge.specs.Writing.{SeenSink};

use crate::names::FileName;
use crate::reading::{Failed, Files};
use crate::writing::Sink;
use std::fs;
use std::io::{Read, Write};
use std::rt::Files as Machine;

/// The current file, with its name.
#[derive(Drop)]
struct Opened<T> {
    name: FileName,
    file: T,
}

/// The files of the machine, which tell no bytes. Each error of the machine is counted as a fault, its want of
/// memory in opening a file included.
#[derive(Drop)]
pub struct RealFiles<R: Machine> {
    machine: R,
    opened: Option<Opened<R::File>>,
    blamed: Option<FileName>,
    faults: u64,
}

impl<R: Machine> RealFiles<R> {
    /// No file is current, and nothing has failed.
    pub fn new(machine: R) -> RealFiles<R>
        ensures { ⟦<RealFiles<R> as Files>⟧.seen result ≡
            record { contents = None; left = None; current = None; blamed = None; faults = 0 } }
    {
        RealFiles {
            machine,
            opened: None,
            blamed: None,
            faults: 0,
        }
    }
}

impl<R: Machine> Files for RealFiles<R> {
    ghost seen = { λ s. record {
      contents = None;
      left = None;
      current = option_map (λ opened. opened.name) s.opened;
      blamed = s.blamed;
      faults = s.faults;
    } };

    fn begin(&mut self, name: FileName) -> Result<(), Failed> {
        match fs::open(&self.machine, name.as_str()) {
            Ok(file) => {
                self.opened = Some(Opened { name, file });
                Ok(())
            }
            Err(_) => {
                self.faults = self.faults.saturating_add(1);
                self.opened = None;
                self.blamed = Some(name);
                Err(Failed)
            }
        }
    }

    fn read(&mut self, into: &mut [u8]) -> Result<usize, Failed> {
        match self.opened.take() {
            Some(mut opened) => match opened.file.read(into) {
                Ok(count) => {
                    self.opened = Some(opened);
                    Ok(count)
                }
                Err(_) => {
                    self.faults = self.faults.saturating_add(1);
                    self.blamed = Some(opened.name);
                    Err(Failed)
                }
            },
            None => {
                self.faults = self.faults.saturating_add(1);
                self.blamed = None;
                Err(Failed)
            }
        }
    }
}

/// A stream of the machine, which tells no bytes. Each error of the stream is counted as a fault, and so is a
/// write that takes nothing of a piece that has bytes.
#[derive(Drop)]
pub struct StdSink<W: Write + Drop> {
    stream: W,
    finished: bool,
    faults: u64,
}

impl<W: Write + Drop> StdSink<W> {
    /// Nothing was taken, and nothing has failed.
    pub fn new(stream: W) -> StdSink<W>
        ensures { ⟦<StdSink<W> as Sink>⟧.seen result ≡
            record { taken = None; room = 0; finished = false; faults = 0 } }
    {
        StdSink {
            stream,
            finished: false,
            faults: 0,
        }
    }
}

impl<W: Write + Drop> Sink for StdSink<W> {
    ghost seen = { λ s. record { taken = None; room = 0; finished = s.finished; faults = s.faults } };

    /// One write of the stream.
    fn write(&mut self, bytes: &[u8]) -> Result<usize, Failed> {
        match self.stream.write(bytes) {
            Ok(count) if count > 0 => {
                self.finished = false;
                Ok(count)
            }
            Ok(_) if bytes.is_empty() => Ok(0),
            _ => {
                self.faults = self.faults.saturating_add(1);
                Err(Failed)
            }
        }
    }

    /// Flushes the stream.
    fn finish(&mut self) -> Result<(), Failed> {
        match self.stream.flush() {
            Ok(()) => {
                self.finished = true;
                Ok(())
            }
            Err(_) => {
                self.faults = self.faults.saturating_add(1);
                Err(Failed)
            }
        }
    }
}
