//! Worked runs, prefix by prefix.

ghost use Rattle.std.specs.List.{list_all};
ghost use Rattle.std.specs.Prelude.{◌≡◌, ◌≤◌, [], ◌∷◌, IfSome, IsTrue, nat_le};
ghost use Rattle.job_model.proofs.Tables.{table_b};
ghost use Rattle.job_model.specs.Scenario.{Fits};
ghost use Rattle.run_meaning.specs.Legal.{Legal};
ghost use Rattle.sag_step.specs.Shape.{Shaped};
ghost use Rattle.sag_step.specs.declared.TheConstants.{MOST_TIME};

use job_model::{Job, JobTable, Scenario};
use job_sets::{JobNo, JobSet};
use run_cover::{replayed, root_covers, steps_cover, wider_states_cover};
use run_meaning::{Place, Schedule};
use sag_step::{MOST_TIME, State};
use sag_time::{Avail, Span};
use start_windows::Ends;
use std::alloc::Global;

// Three jobs, of which the last waits for the first.
fn table(alloc: Global) -> Option<JobTable>
    ensures { IfSome result (λ t. t ≡ table_b) }
{
    let first = Job {
        task: 1,
        job: 1,
        rmin: 0,
        rmax: 0,
        cmin: 2,
        cmax: 4,
        deadline: 10,
        priority: 1,
    };
    let second = Job {
        task: 2,
        cmin: 1,
        cmax: 1,
        priority: 2,
        ..first
    };
    let third = Job {
        task: 3,
        cmin: 1,
        cmax: 2,
        deadline: 6,
        priority: 3,
        ..first
    };
    let rows = vec![in alloc; first, second, third].ok()?;
    let table = JobTable::from_rows(alloc, rows).ok()?;
    let edges = [(JobNo(0), JobNo(2))];
    table.with_edges(alloc, &edges).ok()
}

// The first job costs 4, the second 1, and the third 2.
#[derive(Drop)]
struct Run {
    table: JobTable,
    scenario: Scenario,
    schedule: Schedule,
}

// The run with these places.
fn run_at(alloc: Global, places: Vec<Place>) -> Option<Run>
    ensures table { IfSome result (λ r. r.table ≡ table_b) }
    ensures scenario { IfSome result (λ r. r.scenario ≡ (0, 4) ∷ (0, 1) ∷ (0, 2) ∷ []) }
    ensures fits { IfSome result (λ r. Fits r.table r.scenario) }
    ensures schedule { IfSome result (λ r. r.schedule ≡ places.items) }
{
    let table = table(alloc)?;
    let rows = vec![in alloc; (0, 4), (0, 1), (0, 2)].ok()?;
    let scenario = Scenario::new(&table, rows)?;
    Some(Run {
        table,
        scenario,
        schedule: Schedule { places },
    })
}

// On two cores the first two jobs start at 0, and the third once the first has finished.
fn on_two_cores(alloc: Global) -> Option<Run>
    ensures fits { IfSome result (λ r. Fits r.table r.scenario) }
    ensures legal { IfSome result (λ r. Legal r.table 2 r.scenario r.schedule) }
{
    let places = vec![in alloc;
        Place { start: 0, core: 0 },
        Place { start: 0, core: 1 },
        Place { start: 4, core: 0 },
    ]
    .ok()?;
    let run = run_at(alloc, places)?;
    Some(run)
}

// On one core they run one after another.
fn on_one_core(alloc: Global) -> Option<Run>
    ensures fits { IfSome result (λ r. Fits r.table r.scenario) }
    ensures legal { IfSome result (λ r. Legal r.table 1 r.scenario r.schedule) }
{
    let places = vec![in alloc;
        Place { start: 0, core: 0 },
        Place { start: 4, core: 0 },
        Place { start: 5, core: 0 },
    ]
    .ok()?;
    let run = run_at(alloc, places)?;
    Some(run)
}

// Adds the first jobs, so many.
fn add_first(set: &mut JobSet, count: u16)
    requires { count ≤ set.old.size }
    ensures { set.new.size ≡ set.old.size }
{
    for no in 0..count {
        set.add(JobNo(no));
    }
}

// The set of the first jobs, so many.
fn first_of(alloc: Global, size: u16, count: u16) -> Option<JobSet>
    ensures { IfSome result (λ set. set.size ≡ size) }
{
    let mut set = JobSet::empty(alloc, size).ok()?;
    add_first(&mut set, count.min(size));
    Some(set)
}

// Whether these times may stand in a state.
fn in_limit(times: &[u64]) -> bool
    ensures { result ≡ list_all (λ t. nat_le t MOST_TIME) times.now }
{
    times.iter().all(|time| *time <= MOST_TIME)
}

// The list of these times, if they may stand in a state.
fn avail(alloc: Global, times: &[u64]) -> Option<Avail>
    ensures { IfSome result (λ a. IsTrue (list_all (λ t. nat_le t MOST_TIME) a)) }
{
    if times.len() > 64 || !in_limit(times) {
        return None;
    }
    Avail::from_list(times.to_vec(alloc).ok()?)
}

// The list in which the first job finishes from 2 to `latest`, or the empty one where that is 0.
fn ends_of(alloc: Global, latest: u64) -> Option<Ends>
    ensures { IfSome result (λ ends.
        IsTrue (list_all (λ e. nat_le e.1.hi MOST_TIME) ends.items)) }
{
    let mut ends = Ends::with_room(alloc, 1).ok()?;
    if latest == 0 {
        return Some(ends);
    }
    let span = Span::new(2, latest)?;
    if span.hi() > MOST_TIME {
        return None;
    }
    ends.put(JobNo(0), span);
    Some(ends)
}

// When cores are possibly and certainly free.
#[derive(Drop)]
struct Bars {
    low: Avail,
    high: Avail,
}

// The bars of these times, if they may stand in a state.
fn bars_of(alloc: Global, low: &[u64], high: &[u64]) -> Option<Bars>
    ensures low { IfSome result (λ b. IsTrue (list_all (λ t. nat_le t MOST_TIME) b.low)) }
    ensures high { IfSome result (λ b. IsTrue (list_all (λ t. nat_le t MOST_TIME) b.high)) }
{
    let low = avail(alloc, low)?;
    let high = avail(alloc, high)?;
    Some(Bars { low, high })
}

// The jobs that have started, and those of them that are last on their cores.
#[derive(Drop)]
struct Sets {
    started: JobSet,
    last: JobSet,
}

// The sets of the first jobs, so many.
fn sets_of(alloc: Global, size: u16, started: u16, last: u16) -> Option<Sets>
    ensures started { IfSome result (λ s. s.started.size ≡ size) }
    ensures last { IfSome result (λ s. s.last.size ≡ size) }
{
    let started = first_of(alloc, size, started)?;
    let last = first_of(alloc, size, last)?;
    Some(Sets { started, last })
}

// What a state says: the first jobs, so many, have started; from when on cores are possibly and
// certainly free; by when the first job finishes, or 0 where no job waits for it; and that the first
// of them, so many, are last on their cores.
type Parts<'a> = (u16, &'a [u64], &'a [u64], u64, u16);

// The state of these parts, if it is one.
fn state_of(alloc: Global, table: &JobTable, cores: u16, parts: Parts<'_>) -> Option<State>
    ensures { IfSome result (λ s. Shaped table.now cores s.state) }
{
    let (started, low, high, latest, last) = parts;
    let ends = ends_of(alloc, latest)?;
    let bars = bars_of(alloc, low, high)?;
    let sets = sets_of(alloc, table.len(), started, last)?;
    let Bars { low, high } = bars;
    let Sets { started, last } = sets;
    State::from_parts(table, cores, started, low, high, ends, last)
}

// Whether the state of these parts covers the first jobs of the run, so many.
fn covers(alloc: Global, run: &Run, cores: u16, count: u16, parts: Parts<'_>) -> Option<bool>
    requires fits { Fits run.now.table run.now.scenario }
    requires legal { Legal run.now.table cores run.now.scenario run.now.schedule }
{
    if count > run.table.len() {
        return None;
    }
    let state = state_of(alloc, &run.table, cores, parts)?;
    Some(replayed(
        &run.table,
        cores,
        &run.scenario,
        &run.schedule,
        &state,
        count,
    ))
}

#[test]
fn tells_whether_a_state_covers_a_run(rt: HostRuntime) {
    let alloc = rt.alloc();
    let Some(run) = on_two_cores(alloc) else {
        panic!(rt; "there is memory");
    };
    let cases: [(u16, Parts<'_>, bool); 10] = [
        (0, (0, &[0, 0], &[0, 0], 0, 0), true),
        (1, (1, &[0, 2], &[0, 4], 4, 1), true),
        (1, (1, &[0, 2], &[0, 4], 4, 0), true),
        (2, (2, &[1, 2], &[1, 4], 4, 1), true),
        (3, (3, &[2, 3], &[4, 6], 0, 0), true),
        (1, (0, &[0, 0], &[0, 0], 0, 0), false),
        (2, (1, &[0, 2], &[0, 4], 4, 1), false),
        (2, (2, &[2, 2], &[2, 4], 4, 1), false),
        (2, (2, &[1, 2], &[1, 3], 4, 1), false),
        (2, (2, &[1, 2], &[1, 4], 3, 1), false),
    ];
    for (count, parts, expected) in cases {
        assert_eq!(rt; covers(alloc, &run, 2, count, parts), Some(expected));
    }
    root_covers();
    steps_cover();
    wider_states_cover();
}

#[test]
fn a_job_is_last_on_its_core_until_the_next(rt: HostRuntime) {
    let alloc = rt.alloc();
    let Some(run) = on_one_core(alloc) else {
        panic!(rt; "there is memory");
    };
    for (last, expected) in [(0, true), (1, false)] {
        assert_eq!(rt;
            covers(alloc, &run, 1, 2, (2, &[3], &[5], 4, last)),
            Some(expected)
        );
    }
}
