//! Certificates that are checked as their bytes come: a reader hands its lines to a checker, and the end of the bytes gives a
//! yes, the first clause that is broken, or the place of a text fault. And the lines that are printed of it.
//!
//! No line and no byte is kept but the line that has begun; of the certificate the states of two levels are. It stands on
//! cert_stream (bytes to lines), graph_check (lines to an answer) and sag_edge (what takes a file piece by piece).
#![tactic(auto)]

mod answer_texts;
mod cert_end;
mod checking;
mod laws;
mod line_checker;

pub use answer_texts::{no_text, yes_text};
pub use cert_end::CertEnd;
pub use checking::CertCheck;
pub use laws::{no_fault_of_readable, one_end, one_text_fault};
pub use line_checker::LineChecker;
