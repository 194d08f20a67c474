ghost use Rattle.std.specs.Prelude.{◌≡◌, [], IfOk, length};
ghost use Rattle.job_model.specs.Neighbours.{JoinJobs};

use job_model::{EdgeFault, Job, JobNo, JobTable, TableFault};
use std::alloc::{AllocError, Global};

// A table of that many jobs of one task, whose job IDs are their numbers.
fn table_of(alloc: Global, count: u16) -> Result<JobTable, TableFault>
    ensures { IfOk result (λ table. table.edges ≡ []) }
{
    let mut rows = Vec::new(alloc);
    for job in 0..count {
        let job = Job::from_row([1, u64::from(job), 0, 1, 1, 2, 5, 1]);
        if rows.push(job).is_err() {
            return Err(TableFault::Memory);
        }
    }
    JobTable::from_rows(alloc, rows)
}

// The rows between the jobs of these IDs.
fn rows_of(
    alloc: Global,
    table: &JobTable,
    ids: &[(u64, u64)],
) -> Result<Vec<(JobNo, JobNo)>, AllocError>
    ensures { IfOk result (λ rows. JoinJobs (length table.now.jobs) rows.items) }
{
    let mut rows = Vec::new(alloc);
    for (before, after) in ids {
        if let Some(before) = table.find(1, *before)
            && let Some(after) = table.find(1, *after)
        {
            rows.push((before, after))?;
        }
    }
    Ok(rows)
}

// How many edges a table takes; or why it takes none, with the jobs and edges of the table that is handed back.
type Taken = Result<usize, (EdgeFault, u16, usize)>;

// What the table takes of these rows.
fn taken(alloc: Global, table: JobTable, rows: &[(JobNo, JobNo)]) -> Taken
    requires no_edges { table.edges ≡ [] }
    requires in_range { JoinJobs (length table.jobs) rows.now }
{
    match table.with_edges(alloc, rows) {
        Ok(table) => Ok(table.edges().len()),
        Err((table, fault)) => Err((fault, table.len(), table.edges().len())),
    }
}

// The same of a table of that many jobs and of the rows between the jobs of these IDs.
fn taken_between(alloc: Global, count: u16, ids: &[(u64, u64)]) -> Option<Taken> {
    let Ok(table) = table_of(alloc, count) else {
        return None;
    };
    let Ok(rows) = rows_of(alloc, &table, ids) else {
        return None;
    };
    Some(taken(alloc, table, &rows))
}

#[test]
fn refuses_the_first_row_that_closes_a_cycle(rt: HostRuntime) {
    let cycle = [(3, 0), (0, 1), (1, 2), (2, 3), (0, 0)];
    let cases: [(u16, &[(u64, u64)], Taken); 6] = [
        (4, &[(1, 1)], Err((EdgeFault::SelfEdge(1), 4, 0))),
        (
            4,
            &[(0, 1), (1, 1), (1, 0)],
            Err((EdgeFault::SelfEdge(2), 4, 0)),
        ),
        (4, &cycle, Err((EdgeFault::Cycle(4), 4, 0))),
        (2, &[(0, 1), (1, 0)], Err((EdgeFault::Cycle(2), 2, 0))),
        (4, &cycle[..3], Ok(3)),
        (4, &[(0, 1), (0, 1)], Ok(1)),
    ];
    for (count, ids, want) in cases {
        assert_eq!(rt; taken_between(rt.alloc(), count, ids), Some(want));
    }
}

// Whether the table has the edges of the next test.
fn has_distinct_edges(table: &JobTable) -> bool {
    table.edges().len() == 4
        && table.preds(JobNo(2)) == [JobNo(0), JobNo(1)].as_slice()
        && table.succs(JobNo(0)) == [JobNo(1), JobNo(2)].as_slice()
        && table.preds(JobNo(0)).is_empty()
        && table.succs(JobNo(3)).is_empty()
}

// Whether a table has them that takes these rows.
fn keeps_distinct(alloc: Global, table: JobTable, rows: &[(JobNo, JobNo)]) -> bool
    requires no_edges { table.edges ≡ [] }
    requires in_range { JoinJobs (length table.jobs) rows.now }
{
    match table.with_edges(alloc, rows) {
        Ok(table) => has_distinct_edges(&table),
        Err(_) => false,
    }
}

// The same of the rows between the jobs of these IDs.
fn keeps_distinct_between(alloc: Global, count: u16, ids: &[(u64, u64)]) -> bool {
    let Ok(table) = table_of(alloc, count) else {
        return false;
    };
    let Ok(rows) = rows_of(alloc, &table, ids) else {
        return false;
    };
    keeps_distinct(alloc, table, &rows)
}

#[test]
fn keeps_distinct_edges(rt: HostRuntime) {
    let ids = [(2, 3), (0, 2), (1, 2), (0, 1), (0, 2)];
    assert!(rt; keeps_distinct_between(rt.alloc(), 4, &ids));
}

// So many times the edge between two jobs.
fn taken_often(alloc: Global, count: usize) -> Option<Taken> {
    let Ok(ids) = vec![in alloc; (0, 1); count] else {
        return None;
    };
    taken_between(alloc, 2, &ids)
}

#[test]
fn keeps_the_number_of_rows(rt: HostRuntime) {
    let many = Err((EdgeFault::TooManyEdges, 2, 0));
    assert_eq!(rt; taken_often(rt.alloc(), 65_537), Some(many));
    assert_eq!(rt; taken_often(rt.alloc(), 65_536), Some(Ok(1)));
}

// The edges of a chain of that many jobs, which the last closes or not.
fn chain(alloc: Global, count: u64, is_closed: bool) -> Result<Vec<(u64, u64)>, AllocError> {
    let mut ids = Vec::new(alloc);
    let mut last = 0;
    for job in 1..count {
        ids.push((last, job))?;
        last = job;
    }
    if is_closed {
        ids.push((last, 0))?;
    }
    Ok(ids)
}

// What such a chain of 16,384 jobs takes.
fn taken_of_chain(alloc: Global, is_closed: bool) -> Option<Taken> {
    let Ok(ids) = chain(alloc, 16_384, is_closed) else {
        return None;
    };
    taken_between(alloc, 16_384, &ids)
}

#[test]
fn takes_a_long_chain(rt: HostRuntime) {
    let closed = Err((EdgeFault::Cycle(16_384), 16_384, 0));
    assert_eq!(rt; taken_of_chain(rt.alloc(), false), Some(Ok(16_383)));
    assert_eq!(rt; taken_of_chain(rt.alloc(), true), Some(closed));
}
