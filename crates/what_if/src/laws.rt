//! Laws of edits.

ghost use Rattle.what_if.specs.Laws.{EditsKeepTables, TimesAreUndone};

/// With its old costs and its old deadline again, a table is as it was.
pub fn times_are_undone()
    ensures { TimesAreUndone }
{}

/// A table is one with its edits, where they are of its jobs, with costs that a job may have.
pub fn edits_keep_tables()
    ensures { EditsKeepTables }
{}
