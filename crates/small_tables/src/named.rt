//! Tables that many tests have, by name.

ghost use Rattle.std.specs.Prelude.{◌≡◌, IfOk};
ghost use Rattle.small_tables.specs.Tables.{blocking_table, late_and_urgent_table, one_predecessor_table, wide_release_table};

use crate::{NotATable, build_table};
use job_model::{JobNo, JobTable};
use std::alloc::Global;

/// Two jobs, of which the less urgent may start first and block the other.
pub fn blocking(alloc: Global) -> Result<JobTable, NotATable>
    ensures { IfOk result (λ table. table ≡ blocking_table) }
{
    let rows = [[1, 1, 0, 1, 1, 2, 5, 1], [2, 1, 0, 0, 2, 3, 9, 2]];
    build_table(alloc, &rows, &[])
}

/// Three jobs, of which the third waits for the first.
pub fn one_predecessor(alloc: Global) -> Result<JobTable, NotATable>
    ensures { IfOk result (λ table. table ≡ one_predecessor_table) }
{
    let rows = [
        [1, 1, 0, 0, 2, 4, 10, 1],
        [2, 1, 0, 0, 1, 1, 10, 2],
        [3, 1, 0, 0, 1, 2, 6, 3],
    ];
    build_table(alloc, &rows, &[(JobNo(0), JobNo(2))])
}

/// Two jobs, of which the less urgent is released before, with or after the other.
pub fn wide_release(alloc: Global) -> Result<JobTable, NotATable>
    ensures { IfOk result (λ table. table ≡ wide_release_table) }
{
    let rows = [[1, 1, 0, 10, 1, 1, 11, 2], [2, 1, 5, 5, 1, 1, 6, 1]];
    build_table(alloc, &rows, &[])
}

/// Three jobs, of which the most urgent is long and may come late.
pub fn late_and_urgent(alloc: Global) -> Result<JobTable, NotATable>
    ensures { IfOk result (λ table. table ≡ late_and_urgent_table) }
{
    let rows = [
        [1, 1, 0, 5, 10, 10, 20, 1],
        [2, 1, 0, 0, 3, 3, 20, 2],
        [3, 1, 0, 0, 4, 4, 20, 3],
    ];
    build_table(alloc, &rows, &[])
}
