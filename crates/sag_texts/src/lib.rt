//! The texts that go to the error stream.
#![tactic(auto)]

mod fault;
mod fault_lines;
mod piece;
mod refusal;
mod usage;

pub use fault::{Fault, FileKind};
pub use fault_lines::{write_fault, write_spent};
pub use usage::USAGE;
