ghost use Rattle.std.specs.Prelude.{◌≤◌};

use job_model::{JobNo, JobTable};
use std::alloc::Global;
use workload_gen::{MOST_WORKLOAD_JOBS, generate};

// Whether the first jobs have these rows.
fn has_rows(table: &JobTable, rows: &[[u64; 8]]) -> bool {
    let mut no = 0;
    for row in rows {
        if no >= table.len() || table.job(JobNo(no)).row() != *row {
            return false;
        }
        no += 1;
    }
    true
}

// Whether the workload of that number, so many jobs of it, has these rows first and these edges.
fn is_made(
    alloc: Global,
    number: u64,
    jobs: u16,
    chained: bool,
    rows: &[[u64; 8]],
    edges: &[(JobNo, JobNo)],
) -> bool
    requires some { 1 ≤ jobs }
    requires few { jobs ≤ MOST_WORKLOAD_JOBS }
{
    let Ok(table) = generate(alloc, number, jobs, chained) else {
        return false;
    };
    table.len() == jobs && table.edges() == edges && has_rows(&table, rows)
}

#[test]
fn makes_workloads(rt: HostRuntime) {
    let rows = [
        [1, 1, 3, 3, 2, 4, 43, 0],
        [2, 1, 7, 9, 6, 9, 49, 3],
        [3, 1, 0, 2, 5, 7, 42, 6],
        [4, 1, 1, 2, 1, 3, 42, 1],
        [5, 1, 7, 7, 1, 3, 47, 5],
        [6, 1, 5, 6, 6, 7, 46, 4],
        [1, 2, 85, 87, 4, 5, 127, 4],
    ];
    let edges = [(JobNo(0), JobNo(5)), (JobNo(6), JobNo(11))];
    assert!(rt; is_made(rt.alloc(), 7, 17, true, &rows, &edges));
    assert!(rt; is_made(rt.alloc(), 7, 7, true, &rows, &edges[..1]));
    assert!(rt; is_made(rt.alloc(), 7, 17, false, &rows, &[]));
    let last = [[1, 1, 7, 9, 3, 4, 49, 0]];
    assert!(rt; is_made(rt.alloc(), u64::MAX, 1, true, &last, &[]));
}

// How many edges the greatest workload of that number has, where it is made.
fn chains_in_the_greatest(alloc: Global, number: u64) -> Option<usize> {
    let table = generate(alloc, number, MOST_WORKLOAD_JOBS, true).ok()?;
    Some(table.edges().len())
}

#[test]
fn makes_the_greatest_workload(rt: HostRuntime) {
    assert_eq!(rt; chains_in_the_greatest(rt.alloc(), 3), Some(682));
}
