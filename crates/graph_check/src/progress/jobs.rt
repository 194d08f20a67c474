//! Job lines, the verdict line and the end line.

ghost use Rattle.std.specs.Prelude.{◌≡◌, ◌<◌, ◌==◌, None, false, Some};
ghost use Rattle.std.specs.Bool.{beq};
ghost use Rattle.std.specs.List.{list_all};
ghost use Rattle.job_model.specs.Table.{job_at};
ghost use Rattle.cert_text.specs.declared.line.CertLine.TheVariants as form;
ghost use Rattle.graph_check.specs.declared.due.Due.TheVariants as dues;
ghost use Rattle.graph_check.specs.Checks.{due_checks, first_broken, job_checks};
ghost use Rattle.graph_check.specs.Comings.{Comes};
ghost use Rattle.graph_check.specs.Entries.{is_ok_mark};

use super::{Progress, job_number};
use crate::answer::Broken;
use crate::{Clause, Due};
use cert_text::Mark;
use job_model::JobTable;
use sag_time::Span;

// Whether the mark is ok.
fn is_ok(mark: Mark) -> bool
    ensures { result ≡ is_ok_mark mark }
{
    match mark {
        Mark::Ok => true,
        Mark::Miss => false,
    }
}

// Whether both say the same.
fn agree(one: bool, other: bool) -> bool
    ensures { result ≡ beq one other }
{
    one == other
}

// The deadline of the job of that number, or 0 past the table.
fn deadline(table: &JobTable, number: u64) -> u64
    ensures { result ≡ (job_at table.now number).deadline }
{
    match job_number(table, number) {
        Some(job) => table.job(job).deadline,
        None => 0,
    }
}

// Whether each mark is ok.
fn are_all_ok(marks: &[Mark]) -> bool
    ensures { result ≡ list_all is_ok_mark marks.now }
{
    marks.iter().all(|mark| is_ok(*mark))
}

impl<'a> Progress<'a> {
    // The clause that a job line breaks, if it breaks any.
    fn job_clause(&self, number: u64, lo: u64, hi: u64, mark: Mark) -> Option<Clause>
        ensures { result ≡ first_broken (job_checks self.now.table self.now.progress number
            (record { lo = lo; hi = hi }) mark) }
    {
        if number != self.jobs.spans.len() as u64 {
            return Some(Clause::K2);
        }
        let Some(span) = Span::new(lo, hi) else {
            return Some(Clause::K9);
        };
        if !self.hulls.covers(number, span) {
            return Some(Clause::K9);
        }
        if !agree(is_ok(mark), hi <= deadline(self.walk.table(), number)) {
            return Some(Clause::K10);
        }
        None
    }

    // Takes a job line.
    pub(super) fn job(&mut self, number: u64, lo: u64, hi: u64, mark: Mark) -> Result<(), Broken>
        requires due { self.old.progress.due ≡ dues.Job }
        ensures comes { Comes self.old.table self.old.cores self.old.progress
            (form.Job number lo hi mark) result self.new.progress }
        ensures table { self.new.table ≡ self.old.table }
        ensures cores { self.new.cores ≡ self.old.cores }
    {
        if let Some(clause) = self.job_clause(number, lo, hi, mark) {
            return Err(Broken::Clause(clause));
        }
        let span = Span::new(lo, hi).unwrap();
        let added = self.jobs.add(span, mark);
        if added.is_err() {
            return Err(Broken::Memory);
        }
        self.due = self.due_at_end();
        Ok(())
    }

    // The clause that a verdict line breaks, if it breaks any.
    fn verdict_clause(&self, mark: Mark) -> Option<Clause>
        ensures { result ≡ first_broken (due_checks self.now.table self.now.cores self.now.progress
            dues.Verdict (form.Verdict mark)) }
    {
        if !agree(is_ok(mark), are_all_ok(&self.jobs.marks)) {
            return Some(Clause::K11);
        }
        None
    }

    // Takes the verdict line.
    pub(super) fn verdict(&mut self, mark: Mark) -> Result<(), Broken>
        requires due { self.old.progress.due ≡ dues.Verdict }
        ensures comes { Comes self.old.table self.old.cores self.old.progress (form.Verdict mark)
            result self.new.progress }
        ensures table { self.new.table ≡ self.old.table }
        ensures cores { self.new.cores ≡ self.old.cores }
    {
        if let Some(clause) = self.verdict_clause(mark) {
            return Err(Broken::Clause(clause));
        }
        self.due = Due::End;
        Ok(())
    }

    // Takes the end line.
    pub(super) fn end(&mut self) -> Result<(), Broken>
        requires due { self.old.progress.due ≡ dues.End }
        ensures comes { Comes self.old.table self.old.cores self.old.progress form.End result
            self.new.progress }
        ensures table { self.new.table ≡ self.old.table }
        ensures cores { self.new.cores ≡ self.old.cores }
    {
        self.due = Due::Nothing;
        Ok(())
    }
}
