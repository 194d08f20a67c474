//! Laws of texts of numbers.

ghost use Rattle.csv_numbers.specs.Laws.{OneFirstFault, RowsAgree, RowsKeepRules};

/// The bytes of a text, and the width of its rows, fix the rows.
pub fn rows_agree()
    ensures { RowsAgree }
{}

/// A text that reads as rows has no first fault but want of memory.
pub fn rows_keep_rules()
    ensures { RowsKeepRules }
{}

/// A text has at most one first fault, beside want of memory.
pub fn one_first_fault()
    ensures { OneFirstFault }
{}
