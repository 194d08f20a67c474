//! The text of certificates: one line for each record, in one spelling. Two versions are read, and the second is written.
#![tactic(auto)]

mod digit;
mod fault;
mod feed;
mod grammar;
pub mod laws;
mod line;
mod line_end;
mod machine;
mod reader;
mod separators;
mod spot;
mod whole_lines;
mod words;
mod write;

pub use fault::FeedFault;
pub use line::{CertLine, EndList, EndOf, Mark, Numbers, Pair, Pairs};
pub use reader::CertReader;
pub use write::write_line;
