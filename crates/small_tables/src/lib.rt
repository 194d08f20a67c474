//! Small job tables for tests, by what happens in them, and tables of rows as files have them.
#![tactic(auto)]

mod build;
mod named;
#[cfg(test)]
mod tests;

pub use build::{NotATable, build_table};
pub use named::{blocking, late_and_urgent, one_predecessor, wide_release};
