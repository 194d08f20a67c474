//! The first rule that a schedule breaks, found rule by rule.

ghost use Rattle.std.specs.Prelude.{◌≡◌, ◌<◌, ◌≤◌, IfOk, ℕ, length};
ghost use Rattle.job_model.specs.Scenario.{Fits};
ghost use Rattle.job_model.specs.declared.limits.TheConstants.{MOST_START};
ghost use Rattle.run_meaning.specs.Ready.{start_of};
ghost use Rattle.run_audit.specs.Entries.{core_at, ready_at, start_at};
ghost use Rattle.run_audit.specs.Breaks.{FindsBreak, FindsWait};
ghost use Rattle.run_audit.specs.FirstBreak.{Audits};
ghost use Rattle.run_audit.specs.Orders.{IsOrder};

use crate::broken::{Break, Rule};
use crate::entries::{Entry, entries};
use crate::held::first_job;
use crate::orders::{Moment, by_ready, by_start};
use crate::starts::{first_cut_off, first_off_cores, first_too_early};
use crate::sweep::first_unheld;
use job_model::{JobTable, MOST_CORES, Scenario, ranks_order_jobs};
use job_sets::JobNo;
use run_meaning::Schedule;
use std::alloc::{AllocError, Global};

// That the job breaks the rule as it starts.
fn at_start(entries: &[Entry], rule: Rule, job: JobNo) -> Break
    requires { job < length entries.now }
    ensures { result ≡ record { rule = rule; job = job; time = start_at entries.now job } }
{
    let time = entries[usize::from(job.0)].start;
    Break { rule, job, time }
}

// The first job that waits although it need not, at the first time at which one does.
fn first_waiting(
    alloc: Global,
    entries: &[Entry],
    order: &[Moment],
    cores: u16,
) -> Result<Option<Break>, AllocError>
    requires few { length entries.now ≤ u16.MAX }
    requires some_core { 1 ≤ cores }
    requires starts { IsOrder (start_at entries.now) (length entries.now) order.now }
    requires on_cores { (j : ℕ) → j < length entries.now → core_at entries.now j < cores }
    requires after_ready { (j : ℕ) → j < length entries.now → ready_at entries.now j ≤ start_at entries.now j }
    ensures { IfOk result (FindsWait entries.now cores) }
{
    let readies = by_ready(alloc, entries)?;
    let Some(time) = first_unheld(alloc, entries, order, &readies, cores)? else {
        return Ok(None);
    };
    let job = first_job(alloc, entries, cores, time)?.unwrap();
    let rule = Rule::L3;
    Ok(Some(Break { rule, job, time }))
}

// The first break, rule by rule.
fn first_break(
    alloc: Global,
    entries: &[Entry],
    order: &[Moment],
    cores: u16,
) -> Result<Option<Break>, AllocError>
    requires few { length entries.now ≤ u16.MAX }
    requires some_core { 1 ≤ cores }
    requires starts { IsOrder (start_at entries.now) (length entries.now) order.now }
    ensures { IfOk result (FindsBreak entries.now cores) }
{
    if let Some(job) = first_off_cores(entries, order, cores) {
        return Ok(Some(at_start(entries, Rule::L0, job)));
    }
    if let Some(job) = first_too_early(entries, order) {
        return Ok(Some(at_start(entries, Rule::L1, job)));
    }
    if let Some(job) = first_cut_off(alloc, entries, order, cores)? {
        return Ok(Some(at_start(entries, Rule::L2, job)));
    }
    first_waiting(alloc, entries, order, cores)
}

/// The first rule that the schedule breaks: in the order of the rules, and of one rule at the least time, and
/// there by the job of the least number.
///
/// It takes O((n + E) log n + n m) steps for n jobs, E precedence edges and m cores, however long the run is.
pub fn audit(
    alloc: Global,
    table: &JobTable,
    cores: u16,
    scenario: &Scenario,
    schedule: &Schedule,
) -> Result<Option<Break>, AllocError>
    requires some_core { 1 ≤ cores }
    requires few_cores { cores ≤ MOST_CORES }
    requires fits { Fits table.now scenario.now }
    requires places { length schedule.now ≡ length table.now.jobs }
    requires starts { (j : ℕ) → j < length table.now.jobs → start_of schedule.now j ≤ MOST_START }
    ensures { IfOk result (Audits table.now cores scenario.now schedule.now) }
{
    ranks_order_jobs();
    let entries = entries(alloc, table, scenario, schedule)?;
    let order = by_start(alloc, &entries)?;
    first_break(alloc, &entries, &order, cores)
}
