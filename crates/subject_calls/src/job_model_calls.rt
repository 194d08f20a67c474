ghost use Rattle.std.specs.Prelude.{◌≡◌, length};

use job_model::{Job, JobNo, JobTable, Scenario, TableFault, first_above, ranks_order_jobs};
use std::alloc::Global;

// Two jobs, of which the less urgent may block.
fn jobs() -> [Job; 2] {
    [
        Job::from_row([1, 1, 0, 1, 1, 2, 5, 1]),
        Job::from_row([2, 1, 0, 0, 2, 3, 9, 2]),
    ]
}

fn table_of(alloc: Global, rows: &[Job]) -> Result<JobTable, TableFault> {
    let Ok(rows) = rows.to_vec(alloc) else {
        return Err(TableFault::Memory);
    };
    JobTable::from_rows(alloc, rows)
}

// Whether the table finds the two jobs, and no third.
fn finds_both(table: &JobTable) -> bool {
    table.find(1, 1) == Some(JobNo(0))
        && table.find(2, 1) == Some(JobNo(1))
        && table.find(1, 9).is_none()
}

// Whether the first of the two jobs is the more urgent.
fn orders_both(table: &JobTable) -> bool {
    table.len() == 2
        && table.urgent(JobNo(0), JobNo(1))
        && !table.urgent(JobNo(1), JobNo(0))
        && *table.job(JobNo(1)) == jobs()[1]
}

// Whether no job waits for another.
fn has_no_edges(table: &JobTable) -> bool {
    table.edges().is_empty() && table.preds(JobNo(0)).is_empty() && table.succs(JobNo(0)).is_empty()
}

#[test]
fn looks_up_jobs(rt: HostRuntime) {
    let Ok(table) = table_of(rt.alloc(), &jobs()) else {
        panic!(rt; "the rows are a table");
    };
    let holds = [
        finds_both(&table),
        orders_both(&table),
        has_no_edges(&table),
    ];
    assert_eq!(rt; holds, [true, true, true]);
}

#[test]
fn reads_rows_as_files_have_them(rt: HostRuntime) {
    let row = [1, 2, 3, 4, 5, 6, 7, 8];
    assert_eq!(rt; Job::from_row(row).row(), row);
    assert_eq!(rt; Job::from_row(row).rmax, 4);
}

#[test]
fn orders_jobs_by_release(rt: HostRuntime) {
    let [first, second] = jobs();
    let late = Job { rmin: 1, ..first };
    let last = Job { task: 3, ..first };
    let Ok(table) = table_of(rt.alloc(), &[late, second, last]) else {
        panic!(rt; "the rows are a table");
    };
    let order = [(0, JobNo(1)), (0, JobNo(2)), (1, JobNo(0))];
    assert_eq!(rt; table.by_release(), order.as_slice());
}

// Whether the second job takes these costs and this deadline; and it, as it then is.
fn retimed(alloc: Global, [cmin, cmax, deadline]: [u64; 3]) -> Option<(bool, Job)> {
    let Ok(mut table) = table_of(alloc, &jobs()) else {
        return None;
    };
    if table.len() != 2 {
        return None;
    }
    let kept = table.retime(JobNo(1), cmin, cmax, deadline);
    Some((kept, *table.job(JobNo(1))))
}

#[test]
fn retimes_jobs(rt: HostRuntime) {
    let [_, second] = jobs();
    let longer = Job::from_row([2, 1, 0, 0, 4, 70_368_744_177_663, 3, 2]);
    for (times, want) in [
        ([4, 70_368_744_177_663, 3], (true, longer)),
        ([4, 70_368_744_177_664, 3], (false, second)),
        ([4, 3, 3], (false, second)),
        ([0, 3, 3], (false, second)),
    ] {
        assert_eq!(rt; retimed(rt.alloc(), times), Some(want));
    }
}

// How many jobs are more urgent than each of the seven.
fn ranks(table: &JobTable) -> Option<[u16; 7]> {
    if table.len() != 7 {
        return None;
    }
    Some([
        table.rank(JobNo(0)),
        table.rank(JobNo(1)),
        table.rank(JobNo(2)),
        table.rank(JobNo(3)),
        table.rank(JobNo(4)),
        table.rank(JobNo(5)),
        table.rank(JobNo(6)),
    ])
}

#[test]
fn ranks_jobs_by_urgency(rt: HostRuntime) {
    let most = u64::MAX;
    let rows = [
        Job::from_row([1, 3, 0, 1, 1, 2, 5, 2]),
        Job::from_row([2, 1, 0, 1, 1, 2, 5, 1]),
        Job::from_row([1, 2, 0, 1, 1, 2, 5, 1]),
        Job::from_row([1, 1, 0, 1, 1, 2, 5, 1]),
        Job::from_row([1, 0, 0, 1, 1, 2, 5, 2]),
        Job::from_row([most, most, 0, 1, 1, 2, most, most]),
        Job::from_row([most, most - 1, 0, 1, 1, 2, most, most]),
    ];
    let Ok(table) = table_of(rt.alloc(), &rows) else {
        panic!(rt; "the rows are a table");
    };
    assert_eq!(rt; ranks(&table), Some([4, 2, 1, 0, 3, 6, 5]));
    ranks_order_jobs();
}

// Why these rows are refused.
fn fault_of(alloc: Global, rows: &[Job]) -> Option<TableFault> {
    table_of(alloc, rows).err()
}

#[test]
fn names_the_first_broken_rule(rt: HostRuntime) {
    assert_eq!(rt; first_above(&[(3, 7, 7), (4, 8, 7), (5, 9, 7)]), Some(4));
    let [first, second] = jobs();
    let free = Job { cmin: 0, ..second };
    let dear = Job { cmin: 4, ..second };
    let late = Job {
        rmin: 3,
        rmax: 2,
        ..first
    };
    // The latest release and the greatest cost that a row may have, and one more.
    let last = Job::from_row([1, 1, 0, 281_474_976_710_655, 1, 70_368_744_177_663, 5, 1]);
    let too_late = Job {
        rmax: 281_474_976_710_656,
        ..last
    };
    let too_dear = Job {
        cmax: 70_368_744_177_664,
        ..last
    };
    let cases: [(&[Job], Option<TableFault>); 7] = [
        (&[first, free], Some(TableFault::ZeroCost(2))),
        (&[late, free], Some(TableFault::SpanReversed(1, 3))),
        (&[first, dear], Some(TableFault::SpanReversed(2, 5))),
        (
            &[first, second, first, first],
            Some(TableFault::Twice(3, 1)),
        ),
        (&[last], None),
        (&[too_late], Some(TableFault::OverLimit(1, 4))),
        (&[too_dear], Some(TableFault::OverLimit(1, 6))),
    ];
    for (rows, want) in cases {
        assert_eq!(rt; fault_of(rt.alloc(), rows), want);
    }
}

// Why that many jobs of one task are no table.
fn fault_of_many(alloc: Global, count: u64) -> Option<TableFault> {
    let mut rows = Vec::new(alloc);
    for job in 0..count {
        if rows
            .push(Job::from_row([1, job, 0, 1, 1, 2, 5, 1]))
            .is_err()
        {
            return Some(TableFault::Memory);
        }
    }
    JobTable::from_rows(alloc, rows).err()
}

#[test]
fn keeps_the_number_of_jobs(rt: HostRuntime) {
    assert_eq!(rt; fault_of_many(rt.alloc(), 16_384), None);
    assert_eq!(rt;
        fault_of_many(rt.alloc(), 16_385),
        Some(TableFault::TooMany)
    );
}

// The release of the first job and the cost of the second.
fn values(scenario: &Scenario) -> (u64, u64)
    requires { length scenario.now ≡ 2 }
{
    (scenario.release(JobNo(0)), scenario.cost(JobNo(1)))
}

// These in the scenario of these rows for two jobs, if it is one; none of them where memory runs out.
fn values_of(alloc: Global, table: &JobTable, rows: &[(u64, u64)]) -> Option<Option<(u64, u64)>>
    requires { length table.now.jobs ≡ 2 }
{
    let Ok(rows) = rows.to_vec(alloc) else {
        return None;
    };
    match Scenario::new(table, rows) {
        Some(scenario) => Some(Some(values(&scenario))),
        None => Some(None),
    }
}

#[test]
fn keeps_scenarios_in_their_intervals(rt: HostRuntime) {
    let Ok(table) = table_of(rt.alloc(), &jobs()) else {
        panic!(rt; "the rows are a table");
    };
    assert_eq!(rt; table.len(), 2);
    let cases: [(&[(u64, u64)], Option<(u64, u64)>); 7] = [
        (&[(1, 2), (0, 3)], Some((1, 3))),
        (&[(0, 1), (0, 2)], Some((0, 2))),
        (&[(0, 1)], None),
        (&[(2, 1), (0, 2)], None),
        (&[(0, 1), (1, 2)], None),
        (&[(0, 0), (0, 2)], None),
        (&[(0, 1), (0, 4)], None),
    ];
    for (rows, want) in cases {
        assert_eq!(rt; values_of(rt.alloc(), &table, rows), Some(want));
    }
}
