//! The finishes of runs of scenarios, beside bounds on them.

ghost use Rattle.std.specs.Prelude.{◌≡◌, ℕ, ◌^◌, ◌-◌, ◌<◌, ◌≤◌, IfOk, OnErr, OnOk, length, slice_get};
ghost use Rattle.lists.specs.Numbers.{numbers_below};
ghost use Rattle.job_model.specs.declared.job_row.Job.{Job};
ghost use Rattle.job_model.specs.declared.limits.TheConstants.{MOST_CORES};
ghost use Rattle.job_model.specs.Scenario.{Fits};
ghost use Rattle.job_model.specs.Table.{IsTable};
ghost use Rattle.run_meaning.specs.Legal.{Legal};
ghost use Rattle.run_meaning.specs.Ready.{finish_of};
ghost use Rattle.gap_report.specs.GapRows.{gap_row, gap_rows};
ghost use Rattle.gap_report.specs.InnerBounds.{TakesScenario, ends_by_run, no_bounds};

use crate::GapRow;
use crate::inner_ends::{InnerEnds, ends_after};
use job_model::{Job, JobNo, JobTable, Scenario};
use replay::replay;
use run_meaning::{Schedule, runs_end, starts_agree};
use sag_time::Span;
use std::alloc::{AllocError, Global};
use std::marker::Model;

/// The least and the greatest finish of each job over the runs of the scenarios that were taken.
#[derive(Drop)]
pub struct Gap<'t> {
    alloc: Global,
    table: &'t JobTable,
    cores: u16,
    taken: u32,
    // none before the first scenario
    ends: Vec<InnerEnds>,
}

impl<'t> Model for Gap<'t> {
    ghost use Rattle.gap_report.specs.InnerBounds.{InnerBounds, IsGap};

    ghost Value = { InnerBounds };

    ghost view = { λ g. record { table = g.table.now; cores = g.cores; taken = g.taken; ends = g.ends.items } };

    ghost invariant = { λ g. IsGap (record { table = g.table.now; cores = g.cores; taken = g.taken; ends = g.ends.items }) };
}

// When the job finishes.
fn finish_at(scenario: &Scenario, schedule: &Schedule, no: JobNo) -> u64
    requires releases { no < length scenario.now }
    requires places { no < length schedule.now }
    requires fits { finish_of scenario.now schedule.now no < 2 ^ 64 }
    ensures { result ≡ finish_of scenario.now schedule.now no }
{
    schedule.places[usize::from(no.0)].start + scenario.cost(no)
}

// The ends of the job so far, if there are any.
fn ends_before(ends: &[InnerEnds], no: JobNo) -> Option<InnerEnds>
    ensures { result ≡ slice_get ends.now no }
{
    ends.get(usize::from(no.0)).copied()
}

// The ends of each job once the run is taken, from those before it.
fn ends_by_run(
    alloc: Global,
    table: &JobTable,
    place: u32,
    scenario: &Scenario,
    schedule: &Schedule,
    ends: &[InnerEnds],
) -> Result<Vec<InnerEnds>, AllocError>
    requires fits { Fits table.now scenario.now }
    requires legal { (cores : ℕ) × Legal table.now cores scenario.now schedule.now }
    ensures ends { IfOk result (λ new. new.items ≡ ends_by_run table.now place scenario.now schedule.now ends.now) }
    ensures table { IsTable table.now }
{
    runs_end();
    let count = table.len();
    let mut new = Vec::with_capacity(alloc, usize::from(count))?;
    for j in 0..count {
        let finish = finish_at(scenario, schedule, JobNo(j));
        new.push(ends_after(place, finish, ends_before(ends, JobNo(j))))?;
    }
    Ok(new)
}

// The row of a job with these ends and this span.
fn row_of(job: &Job, ends: InnerEnds, span: Span) -> GapRow
    ensures { result ≡ gap_row job.now ends span }
{
    GapRow {
        task: job.task,
        job: job.job,
        bcct: span.lo(),
        inner_lo: ends.lo,
        lo_trial: ends.lo_trial,
        inner_hi: ends.hi,
        hi_trial: ends.hi_trial,
        wcct: span.hi(),
    }
}

// The row of each job.
fn rows_of(
    alloc: Global,
    table: &JobTable,
    ends: &[InnerEnds],
    spans: &[Span],
) -> Result<Vec<GapRow>, AllocError>
    requires ends { length ends.now ≡ length table.now.jobs }
    requires spans { length spans.now ≡ length table.now.jobs }
    ensures { IfOk result (λ rows. rows.items ≡ gap_rows table.now ends.now spans.now) }
{
    let count = table.len();
    let mut rows = Vec::with_capacity(alloc, usize::from(count))?;
    for no in 0..count {
        let place = usize::from(no);
        rows.push(row_of(table.job(JobNo(no)), ends[place], spans[place]))?;
    }
    Ok(rows)
}

impl<'t> Gap<'t> {
    /// No scenario of the table is taken yet.
    pub fn new(alloc: Global, table: &'t JobTable, cores: u16) -> Gap<'t>
        requires some_core { 1 ≤ cores }
        requires few_cores { cores ≤ MOST_CORES }
        ensures { result ≡ no_bounds table.now cores }
    {
        Gap {
            alloc,
            table,
            cores,
            taken: 0,
            ends: Vec::new(alloc),
        }
    }

    /// Takes the finishes of the scenario's run. They are those of every legal schedule of the scenario. Where memory
    /// runs out, nothing changes.
    pub fn take(&mut self, scenario: &Scenario) -> Result<(), AllocError>
        requires fits { Fits self.old.table scenario.now }
        requires few { self.old.taken < 2 ^ 32 - 1 }
        ensures takes { OnOk result (TakesScenario self.old scenario.now self.new) }
        ensures unchanged { OnErr result (self.new ≡ self.old) }
    {
        starts_agree();
        let schedule = replay(self.alloc, self.table, self.cores, scenario)?;
        let ends = ends_by_run(
            self.alloc, self.table, self.taken, scenario, &schedule, &self.ends,
        )?;
        self.ends = ends;
        self.taken += 1;
        Ok(())
    }

    /// A row for each job, by its number, with its span. At least one scenario was taken.
    pub fn rows(&self, spans: &[Span]) -> Result<Vec<GapRow>, AllocError>
        requires spans { length spans.now ≡ length self.now.table.jobs }
        requires taken { 0 < self.now.taken }
        ensures { IfOk result (λ rows. rows.items ≡ gap_rows self.now.table self.now.ends spans.now) }
    {
        rows_of(self.alloc, self.table, &self.ends, spans)
    }
}
