//! Why a certificate cannot be read on.

/// Why a certificate cannot be read on.
#[derive(Clone, Copy, PartialEq, Eq, Debug)]
pub enum FeedFault {
    /// The first byte with which the bytes so far begin no readable certificate: the number of its line and its
    /// number in that line, both from 1. At the end of the bytes it is the place where the next byte would stand.
    Text { line: u64, byte: u64 },
    /// Memory ran out.
    Memory,
}
