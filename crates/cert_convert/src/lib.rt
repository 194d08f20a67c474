//! Certificates of the old version, written in the new one.
//!
//! The lines stay as they are, and no state lists last jobs. The whole output is held, so that a text fault, wherever it
//! comes, leaves nothing to print.
#![tactic(auto)]

mod conversion;
mod converted_lines;
mod laws;

pub use conversion::Conversion;
pub use laws::{converted_is_readable, one_conversion};
