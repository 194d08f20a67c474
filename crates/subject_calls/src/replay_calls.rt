use job_model::{MOST_CORES, Scenario};
use replay::{replay, runs_exist};
use run_meaning::{Place, predecessors_come_earlier, starts_agree};
use small_tables::build_table;
use std::alloc::Global;

// Whether the jobs of these rows, with these releases and costs, have these places.
fn have_places(
    alloc: Global,
    rows: &[[u64; 8]],
    values: &[(u64, u64)],
    cores: u16,
    want: &[Place],
) -> Option<bool> {
    if cores < 1 || MOST_CORES < cores {
        return None;
    }
    let table = build_table(alloc, rows, &[]).ok()?;
    let scenario = Scenario::new(&table, values.to_vec(alloc).ok()?)?;
    let schedule = replay(alloc, &table, cores, &scenario).ok()?;
    Some(schedule.places.as_slice() == want)
}

fn at(start: u64, core: u16) -> Place {
    Place { start, core }
}

// Rows, releases and costs, the number of cores, and the places.
type Case<'a> = (&'a [[u64; 8]], &'a [(u64, u64)], u16, &'a [Place]);

#[test]
fn dispatches_by_urgency_when_a_core_is_idle(rt: HostRuntime) {
    let most = u64::MAX;
    let blocking = [[1, 1, 0, 1, 1, 2, 5, 1], [2, 1, 0, 0, 2, 3, 9, 2]];
    let tied = [
        [most, most, 0, 9, 1, 9, most, 7],
        [most, most - 1, 0, 9, 1, 9, most, 7],
    ];
    let three = [
        [1, 1, 0, 9, 1, 9, 99, 1],
        [2, 1, 0, 9, 1, 9, 99, 2],
        [3, 1, 0, 9, 1, 9, 99, 3],
    ];
    let cases: [Case<'_>; 5] = [
        // The less urgent job blocks; of two of one priority that of the lower IDs comes first.
        (&blocking, &[(1, 2), (0, 3)], 1, &[at(3, 0), at(0, 0)]),
        (&tied, &[(0, 1), (0, 1)], 1, &[at(1, 0), at(0, 0)]),
        // The lowest idle core is taken.
        (
            &three,
            &[(0, 4), (0, 1), (0, 2)],
            2,
            &[at(0, 0), at(0, 1), at(1, 1)],
        ),
        (
            &three,
            &[(0, 4), (0, 1), (5, 2)],
            2,
            &[at(0, 0), at(0, 1), at(5, 0)],
        ),
        (&[], &[], 256, &[]),
    ];
    for (rows, values, cores, want) in cases {
        let answer = have_places(rt.alloc(), rows, values, cores, want);
        assert_eq!(rt; answer, Some(true), "{rows:?} {values:?}");
    }
    starts_agree();
    predecessors_come_earlier();
    runs_exist();
}
