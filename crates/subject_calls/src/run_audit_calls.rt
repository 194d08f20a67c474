ghost use Rattle.std.specs.Prelude.{◌≡◌, [], ◌∷◌, IfSome};

use job_model::{JobTable, MOST_START, Scenario};
use run_audit::{audit, broken_text};
use run_meaning::{Place, Schedule};
use small_tables::{NotATable, blocking, build_table};
use std::alloc::Global;

// A job with its start and its core.
type Start = (u64, u16);

// The run of two jobs.
fn run_of(alloc: Global, first: Place, second: Place) -> Option<Schedule>
    ensures { IfSome result (λ run. run ≡ first ∷ second ∷ []) }
{
    let mut places = Vec::new(alloc);
    places.push(first).ok()?;
    places.push(second).ok()?;
    Some(Schedule { places })
}

// What is printed of a run of two jobs on one core.
fn line_of(
    alloc: Global,
    table: &JobTable,
    values: [(u64, u64); 2],
    first: Place,
    second: Place,
) -> Option<Vec<u8>> {
    let scenario = Scenario::new(table, values.to_vec(alloc).ok()?)?;
    let first_late = first.start > MOST_START;
    if first_late {
        return None;
    }
    let second_late = second.start > MOST_START;
    if second_late {
        return None;
    }
    if table.len() != 2 {
        return None;
    }
    let run = run_of(alloc, first, second)?;
    match audit(alloc, table, 1, &scenario, &run).ok()? {
        Some(broken) => broken_text(alloc, table, broken).ok(),
        None => b"legal\n".as_slice().to_vec(alloc).ok(),
    }
}

// Whether that is the line.
fn comes_to(
    alloc: Global,
    table: &Result<JobTable, NotATable>,
    values: [(u64, u64); 2],
    starts: [Start; 2],
    line: &[u8],
) -> bool {
    let Ok(table) = table else {
        return false;
    };
    let [(start, core), (other_start, other_core)] = starts;
    let first = Place { start, core };
    let second = Place {
        start: other_start,
        core: other_core,
    };
    match line_of(alloc, table, values, first, second) {
        Some(text) => text.as_slice() == line,
        None => false,
    }
}

#[test]
fn tells_the_first_rule_that_is_broken(rt: HostRuntime) {
    let table = blocking(rt.alloc());
    let cases: [([Start; 2], &[u8]); 6] = [
        ([(3, 0), (0, 0)], b"legal\n"),
        ([(1, 0), (3, 0)], b"broken L3 job 2 1 time 0\n"),
        ([(2, 0), (0, 0)], b"broken L2 job 1 1 time 2\n"),
        ([(3, 0), (0, 1)], b"broken L0 job 2 1 time 0\n"),
        ([(0, 0), (0, 0)], b"broken L1 job 1 1 time 0\n"),
        ([(1 << 47, 0), (0, 0)], b"broken L3 job 1 1 time 3\n"),
    ];
    for (starts, line) in cases {
        assert!(rt;
            comes_to(rt.alloc(), &table, [(1, 2), (0, 3)], starts, line),
            "{line:?}"
        );
    }
}

#[test]
fn judges_long_waits_at_once(rt: HostRuntime) {
    const LONG: u64 = 70_368_744_177_663;
    const DEADLINE: u64 = 200_000_000_000_000;
    let rows = [
        [1, 1, 0, 0, 1, LONG, DEADLINE, 1],
        [2, 1, 0, 0, 1, 1, DEADLINE, 2],
    ];
    let table = build_table(rt.alloc(), &rows, &[]);
    let starts = [(0, 0), (LONG, 0)];
    assert!(rt; comes_to(rt.alloc(), &table, [(0, LONG), (0, 1)], starts, b"legal\n"));
}
