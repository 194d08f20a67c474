//! What is kept of the lines of a certificate while no clause is broken.

ghost use Rattle.std.specs.Prelude.{◌≡◌, ◌+◌, ◌<◌, ◌≤◌, ◌^◌, ◌&&◌, ◌==◌, IfNone, IfOk, IfSome, None, OnOk, false, Some, length, map};
ghost use Rattle.cert_text.specs.Grammar.{second_version};
ghost use Rattle.cert_text.specs.Spelling.{FitsLine};
ghost use Rattle.graph_check.specs.Checks as checks;
ghost use Rattle.graph_check.specs.Comings as comings;
ghost use Rattle.graph_check.specs.Comings.{Comes, StepsOn, due_for};
ghost use Rattle.graph_check.specs.Progress.{before_first_line};
ghost use Rattle.graph_check.specs.Progress as progress;

mod edges;
mod jobs;
mod levels;
mod states;

use crate::answer::{Broken, Yes};
use crate::due::{is_due, kind_of};
use crate::hulls::Hulls;
use crate::level_state::LevelState;
use crate::offer_walk::OfferWalk;
use crate::{Clause, Due};
use cert_text::CertLine;
use job_model::{JobNo, JobTable};
use sag_step::State;
use std::alloc::{AllocError, Global};
use std::marker::Model;

/// What is kept of the lines. Of the states it keeps those of the level that is read, and those of the one before it.
#[derive(Drop)]
pub(crate) struct Progress<'a> {
    alloc: Global,
    lines: u64,
    due: Due,
    // the level reached, and its stated count of states
    level: u64,
    count: u64,
    // the level before it
    walk: OfferWalk<'a>,
    states: Vec<LevelState>,
    hulls: Hulls,
    jobs: Yes,
}

impl<'a> Model for Progress<'a> {
    ghost use Rattle.std.specs.Prelude.{◌≡◌, ◌<◌, ◌^◌, length};
    ghost use Rattle.graph_check.specs.Comings.{HeldProgress};

    ghost Value = { HeldProgress };

    ghost use Rattle.graph_check.specs.Turns.{AreFit};
    ghost use Rattle.graph_check.specs.Shown.{held_progress};

    ghost view = { held_progress };

    ghost invariant = { λ p. AreFit p.walk.table p.walk.cores p.states.items
        × (length p.hulls ≡ length p.walk.table.jobs)
        × (length p.jobs.spans.items ≡ length p.jobs.marks.items)
        × (p.level < 2 ^ 62) };
}

// The job of that number, if the table has it.
fn job_number(table: &JobTable, number: u64) -> Option<JobNo>
    ensures some { IfSome result (λ job. (job ≡ number) × (job < length table.now.jobs)) }
    ensures none { IfNone result (length table.now.jobs ≤ number) }
{
    if number >= u64::from(table.len()) {
        return None;
    }
    Some(JobNo(number as u16))
}

impl<'a> Progress<'a> {
    /// Before the first line.
    pub(crate) fn new(
        alloc: Global,
        table: &'a JobTable,
        cores: u16,
    ) -> Result<Progress<'a>, AllocError>
        requires { 1 ≤ cores }
        ensures { IfOk result (λ p. p ≡ record { table = table.now; cores = cores; progress = before_first_line table.now }) }
    {
        let hulls = Hulls::none(alloc, table.len())?;
        Ok(Progress {
            alloc,
            lines: 0,
            due: Due::Head,
            level: 0,
            count: 0,
            walk: OfferWalk::new(alloc, table, cores)?,
            states: Vec::new(alloc),
            hulls,
            jobs: Yes {
                spans: Vec::new(alloc),
                marks: Vec::new(alloc),
            },
        })
    }

    /// The table.
    pub(crate) fn table(&self) -> &'a JobTable
        ensures { result.now ≡ self.now.table }
    {
        self.walk.table()
    }

    /// How many lines were read.
    pub(crate) fn lines(&self) -> u64
        ensures { result ≡ self.now.progress.lines }
    {
        self.lines
    }

    /// The kind of line that is due.
    pub(crate) fn due(&self) -> Due
        ensures { result ≡ self.now.progress.due }
    {
        self.due
    }

    /// The intervals and marks of the jobs so far.
    pub(crate) fn into_jobs(self) -> Yes
        ensures spans { result.spans.items ≡ map (λ s. s.span) self.entry.progress.jobs }
        ensures marks { result.marks.items ≡ map (λ s. s.mark) self.entry.progress.jobs }
    {
        self.jobs
    }

    /// Keeps no states any more.
    pub(crate) fn forget_states(&mut self)
        ensures table { self.new.table ≡ self.old.table }
        ensures cores { self.new.cores ≡ self.old.cores }
    {
        self.states = Vec::new(self.alloc);
        self.walk.forget_states(self.alloc);
    }

    // Which line is due once all levels are read.
    fn due_at_end(&self) -> Due
        ensures { result ≡ progress.due_at_end self.now.table self.now.progress }
    {
        if self.jobs.spans.len() < usize::from(self.walk.table().len()) {
            Due::Job
        } else {
            Due::Verdict
        }
    }

    // Which line is due in a level.
    fn due_in_level(&self) -> Due
        ensures { result ≡ progress.due_in_level self.now.table self.now.progress }
    {
        if (self.states.len() as u64) < self.count {
            Due::State
        } else if self.walk.turn().is_some() {
            Due::Edge
        } else if self.level < u64::from(self.walk.table().len()) {
            Due::Level
        } else {
            self.due_at_end()
        }
    }

    // Whether a level above 0 was just read whole, with its edges.
    fn is_behind_block(&self) -> bool
        ensures { result ≡ checks.is_behind_block self.now.progress self.now.progress.due }
    {
        match self.due {
            Due::Level => self.level > 0,
            Due::Job => self.level > 0 && self.jobs.spans.is_empty(),
            _ => false,
        }
    }

    // The clause that a line breaks that is not of the kind that is due.
    fn turn_clause(&self, kind: Due) -> Clause
        ensures { result ≡ comings.turn_clause self.now.progress self.now.progress.due kind }
    {
        if self.due == Due::Edge || (kind == Due::Edge && self.is_behind_block()) {
            Clause::K6
        } else {
            Clause::K2
        }
    }

    // Takes a line of the kind that is due.
    fn take_due(&mut self, line: &CertLine) -> Result<(), Broken>
        requires due { self.old.progress.due ≡ due_for line.now }
        requires fits { FitsLine second_version line.now }
        requires few { self.old.progress.edges < 2 ^ 63 }
        ensures comes { Comes self.old.table self.old.cores self.old.progress line.now result
            self.new.progress }
        ensures table { self.new.table ≡ self.old.table }
        ensures cores { self.new.cores ≡ self.old.cores }
    {
        match line {
            CertLine::Head { jobs, cores } => self.head(*jobs, *cores),
            CertLine::Level { number, count } => self.level(*number, *count),
            CertLine::Root { pairs } => self.root(pairs.as_slice()),
            CertLine::State {
                parent,
                job,
                pairs,
                ends,
                last,
            } => self.state(
                *parent,
                *job,
                pairs.as_slice(),
                ends.as_slice(),
                last.as_slice(),
            ),
            CertLine::Edge {
                from,
                job,
                est,
                lst,
                to,
            } => self.edge(*from, *job, *est, *lst, *to),
            CertLine::Job {
                number,
                lo,
                hi,
                mark,
            } => self.job(*number, *lo, *hi, *mark),
            CertLine::Verdict { mark } => self.verdict(*mark),
            CertLine::End => self.end(),
        }
    }

    // Takes a line, but for its count.
    fn take(&mut self, line: &CertLine) -> Result<(), Broken>
        requires fits { FitsLine second_version line.now }
        requires few { self.old.progress.edges < 2 ^ 63 }
        ensures comes { Comes self.old.table self.old.cores self.old.progress line.now result
            self.new.progress }
        ensures table { self.new.table ≡ self.old.table }
        ensures cores { self.new.cores ≡ self.old.cores }
    {
        let kind = kind_of(line);
        if !is_due(self.due, kind) {
            return Err(Broken::Clause(self.turn_clause(kind)));
        }
        self.take_due(line)
    }

    /// Takes a line.
    pub(crate) fn step(&mut self, line: &CertLine) -> Result<(), Broken>
        requires fits { FitsLine second_version line.now }
        requires few_lines { self.old.progress.lines < 2 ^ 63 }
        requires few_edges { self.old.progress.edges ≤ self.old.progress.lines }
        ensures step { StepsOn self.old.table self.old.cores self.old.progress line.now result
            self.new.progress }
        ensures table { self.new.table ≡ self.old.table }
        ensures cores { self.new.cores ≡ self.old.cores }
        ensures few_edges { OnOk result (self.new.progress.edges ≤ self.new.progress.lines) }
    {
        match self.take(line) {
            Ok(()) => {
                self.lines += 1;
                Ok(())
            }
            Err(broken) => Err(broken),
        }
    }
}
