//! The program as one call: words, files and two sinks in, a status out.
#![tactic(auto)]

mod certificate;
mod command_analyse;
mod command_attain;
mod command_audit;
mod command_check;
mod command_convert;
mod command_gap;
mod command_replay;
mod command_report;
mod command_selftest;
mod command_unroll;
mod command_whatif;
mod conclusion;
mod explain;
mod fetch;
mod halt;
mod inputs;
mod laws;
mod outputs;
mod run;
mod status;

pub use laws::{calls_agree, one_answer, words_suffice};
pub use run::sag_run;
pub use status::Status;
