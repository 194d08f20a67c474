//! Files that are read and streams that are written, by what a caller can know of them.
#![tactic(auto)]

mod machine;
mod memory;
mod names;
mod pouring;
mod reading;
mod sure;
mod writing;

pub use machine::{RealFiles, StdSink};
pub use memory::{MemFiles, MemSink};
pub use names::{FileBytes, FileName};
pub use pouring::{TakePiece, pour};
pub use reading::{Failed, Files, ReadAnswer, read_all};
pub use sure::{SureFiles, SureSink};
pub use writing::{Sink, write_whole};
