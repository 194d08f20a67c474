//! Tables of numbers as CSV, both ways.
#![tactic(auto)]

mod fault;
mod field;
mod laws;
mod read;
mod rows;
mod write;

pub use fault::CsvFault;
pub use field::{NumberFault, read_number};
pub use laws::{one_first_fault, rows_agree, rows_keep_rules};
pub use read::read_numbers;
pub use rows::NumberRows;
pub use write::write_table;
