//! Calls of the program over files and streams in memory.

ghost use Rattle.std.specs.Prelude.{◌≤◌};

use sag_edge::{FileBytes, FileName, MemFiles, MemSink};
use sag_engine::{Status, sag_run};
use std::alloc::{AllocError, Global};

/// What a call came to.
#[derive(Drop)]
pub(crate) struct Ended {
    pub(crate) status: Status,
    pub(crate) out: MemSink,
    pub(crate) err: MemSink,
}

impl Ended {
    /// Whether the status, the output and the errors are these.
    pub(crate) fn is(&self, status: Status, out: &str, err: &str) -> bool {
        self.status == status
            && self.out.bytes() == out.as_bytes()
            && self.err.bytes() == err.as_bytes()
    }
}

// The words of a command line.
fn words_of(alloc: Global, words: &[&str]) -> Result<Vec<String>, AllocError> {
    let mut list = Vec::new(alloc);
    for word in words {
        list.push(String::from_str(alloc, word)?)?;
    }
    Ok(list)
}

/// Files of these names and texts. A read gives at most `most` bytes; these reads fail, by name and number, 0 being the file's
/// beginning.
pub(crate) fn held(
    alloc: Global,
    files: &[(&str, &str)],
    most: usize,
    failing: &[(&str, u64)],
) -> Result<MemFiles, AllocError>
    requires { 1 ≤ most }
{
    let mut list = Vec::new(alloc);
    for (name, text) in files {
        let name = FileName::from_text(alloc, name)?;
        let bytes = Vec::from_slice(alloc, text.as_bytes())?;
        list.push((name, FileBytes::from_vec(bytes)))?;
    }
    let mut faults = Vec::new(alloc);
    for (name, read) in failing {
        faults.push((FileName::from_text(alloc, name)?, *read))?;
    }
    Ok(MemFiles::new(list, most, faults))
}

/// A stream that takes at most `most` bytes a write, and whose calls from the first to the last of these numbers fail.
pub(crate) fn stream(
    alloc: Global,
    most: usize,
    first: u64,
    last: u64,
) -> Result<MemSink, AllocError>
    requires { 1 ≤ most }
{
    let mut faults = Vec::new(alloc);
    for call in first..=last {
        faults.push(call)?;
    }
    MemSink::new(alloc, 1_048_576, most, faults)
}

/// A stream of which no call fails.
pub(crate) fn sure_stream(alloc: Global) -> Result<MemSink, AllocError> {
    MemSink::new(alloc, 1_048_576, 65_536, Vec::new(alloc))
}

/// Calls `sag` with these words over these files and streams.
pub(crate) fn call(
    alloc: Global,
    words: &[&str],
    mut files: MemFiles,
    mut out: MemSink,
    mut err: MemSink,
) -> Result<Ended, AllocError> {
    let words = words_of(alloc, words)?;
    let status = sag_run(alloc, &words, &mut files, &mut out, &mut err);
    Ok(Ended { status, out, err })
}
