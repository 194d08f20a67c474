use crate::{
    gap, graph_spans_hold, inner_ends_in_spans, no_gap_on_one_core, one_gap, trial, trials_fit,
};
use gap_report::{last_trial, write_gap};
use graph_memory::build;
use job_model::{JobNo, JobTable, MOST_CORES};
use small_tables::{NotATable, blocking, late_and_urgent, one_predecessor};
use std::alloc::Global;

// Whether the table on so many cores comes to this text.
fn compares(
    alloc: Global,
    table: Result<JobTable, NotATable>,
    cores: u16,
    text: &[u8],
) -> Option<bool> {
    if cores < 1 || MOST_CORES < cores {
        return None;
    }
    let table = table.ok()?;
    let graph = build(alloc, &table, cores, 100).ok()?;
    let rows = gap(alloc, &table, cores, &graph).ok()?;
    let written = write_gap(alloc, &rows).ok()?;
    Some(written.as_slice() == text)
}

// Whether that trial of the table on one core has these releases and costs.
fn has_trial(
    alloc: Global,
    table: Result<JobTable, NotATable>,
    k: u32,
    want: &[(u64, u64)],
) -> Option<bool> {
    let table = table.ok()?;
    if last_trial(&table) < k || want.len() != usize::from(table.len()) {
        return None;
    }
    let graph = build(alloc, &table, 1, 100).ok()?;
    let scenario = trial(alloc, &table, 1, &graph, k).ok()?;
    for j in 0..table.len() {
        let row = (scenario.release(JobNo(j)), scenario.cost(JobNo(j)));
        if row != want[usize::from(j)] {
            return Some(false);
        }
    }
    Some(true)
}

#[test]
fn compares_spans_with_all_trials(rt: HostRuntime) {
    trials_fit();
    one_gap();
    graph_spans_hold();
    inner_ends_in_spans();
    no_gap_on_one_core();
    let alloc = rt.alloc();
    let one_core = b"Task ID,Job ID,BCCT,Inner BCCT,Best trial,Inner WCCT,Worst trial,WCCT\n\
        1,1,1,1,0,5,3,5\n2,1,2,2,2,5,1,5\n";
    let waiting = b"Task ID,Job ID,BCCT,Inner BCCT,Best trial,Inner WCCT,Worst trial,WCCT\n\
        1,1,2,2,0,4,1,4\n2,1,1,1,0,1,0,1\n3,1,3,3,0,6,1,6\n";
    let late = b"Task ID,Job ID,BCCT,Inner BCCT,Best trial,Inner WCCT,Worst trial,WCCT\n\
        1,1,10,10,0,15,2,15\n2,1,3,3,0,3,0,3\n3,1,4,4,2,7,0,7\n";
    assert_eq!(rt;
        compares(alloc, blocking(alloc), 1, one_core.as_slice()),
        Some(true)
    );
    assert_eq!(rt;
        compares(alloc, one_predecessor(alloc), 2, waiting.as_slice()),
        Some(true)
    );
    assert_eq!(rt;
        compares(alloc, late_and_urgent(alloc), 2, late.as_slice()),
        Some(true)
    );
    assert_eq!(rt;
        has_trial(alloc, blocking(alloc), 5, &[(1, 2), (0, 3)]),
        Some(true)
    );
}
