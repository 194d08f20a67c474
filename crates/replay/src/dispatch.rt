//! The dispatcher: global scheduling without preemption by job-level fixed priority, as in the model of Nasri, Nelissen and
//! Brandenburg ("A Response-Time Analysis for Non-Preemptive Job Sets under Global Scheduling", ECRTS 2018, the section on the
//! system model), for one known scenario. What differs: a job may wait for predecessors, ties are broken by IDs, and each job
//! takes the lowest idle core.
ghost use Rattle.std.specs.Prelude.{◌≤◌, IfOk};
ghost use Rattle.job_model.specs.declared.limits.TheConstants.{MOST_CORES};
ghost use Rattle.job_model.specs.Table.{IsTable};
ghost use Rattle.job_model.specs.Scenario.{Fits};
ghost use Rattle.run_meaning.specs.Legal.{Legal, LowestIdle};
ghost use Rattle.replay.specs.Underway.{HasTurn, IsNext};

use crate::cores::{first_free, lowest_free};
use crate::queues::Queues;
use job_model::{JobNo, JobTable, Scenario};
use run_meaning::{Place, Schedule};
use std::alloc::{AllocError, Global};

// The next dispatch: a job, its core and its start. At the earliest time at which a job is ready and
// a core is free, it takes the most urgent of those jobs and the lowest of those cores.
fn next_turn(
    table: &JobTable,
    cores: u16,
    scenario: &Scenario,
    queues: &mut Queues,
    free: &[u64],
    clock: u64,
) -> Result<(JobNo, u16, u64), AllocError>
    requires some_core { 1 ≤ cores }
    requires few_cores { cores ≤ MOST_CORES }
    requires table { IsTable table.now }
    requires fits { Fits table.now scenario.now }
    requires stands { HasTurn table.now cores scenario.now queues.old free.now clock }
    ensures { IfOk result (IsNext table.now cores scenario.now queues.old free.now clock queues.new) }
{
    let idle = first_free(free).unwrap();
    let time = queues.next_ready(clock.max(idle)).unwrap();
    queues.admit(table, time)?;
    let job = queues.take().unwrap();
    let core = lowest_free(free, time).unwrap();
    Ok((job.no, core, time))
}

/// The schedule of a scenario: from event to event, at the earliest time at which a job is ready and
/// a core idle, the most urgent of those jobs starts on the lowest of those cores. A job is ready once
/// it is released and its predecessors have finished.
///
/// It takes O((n + E) log n + n m) steps for n jobs, E precedence edges and m cores.
pub fn replay(
    alloc: Global,
    table: &JobTable,
    cores: u16,
    scenario: &Scenario,
) -> Result<Schedule, AllocError>
    requires some_core { 1 ≤ cores }
    requires few_cores { cores ≤ MOST_CORES }
    requires fits { Fits table.now scenario.now }
    ensures legal { IfOk result (λ schedule. Legal table.now cores scenario.now schedule) }
    ensures lowest_idle { IfOk result (λ schedule. LowestIdle table.now scenario.now schedule) }
{
    let count = table.len();
    let mut places = vec![in alloc; Place { start: 0, core: 0 }; count as usize]?;
    let mut free: Vec<u64> = vec![in alloc; 0; cores as usize]?;
    let mut queues = Queues::new(alloc, table, scenario)?;
    let mut clock = 0;
    for _turn in 0..count {
        let (job, core, time) = next_turn(table, cores, scenario, &mut queues, &free, clock)?;
        let finish = time + scenario.cost(job);
        places[job.0 as usize] = Place { start: time, core };
        free[core as usize] = finish;
        queues.unblock(table, job, finish)?;
        clock = time;
    }
    Ok(Schedule { places })
}
