//! The words of the command line.
#![tactic(auto)]

mod analyse;
mod attain;
mod audit;
mod check;
mod command;
mod convert;
mod ends;
mod fault;
mod flags;
mod gap;
mod laws;
mod names;
mod numbers;
mod parse;
mod policies;
mod replay;
mod report;
mod selftest;
mod unroll;
mod what_if;
mod words;

pub use command::Command;
pub use fault::WordFault;
pub use laws::one_command;
pub use numbers::DEFAULT_BUDGET;
pub use words::read_words;
