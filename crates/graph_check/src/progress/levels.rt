//! The head line, and level lines.

ghost use Rattle.std.specs.Prelude.{◌≡◌, ◌+◌, ◌<◌, ◌&&◌, ◌==◌, IfErr, None, OnOk, Some};
ghost use Rattle.cert_text.specs.Grammar.{IsCertNumber};
ghost use Rattle.cert_text.specs.declared.line.CertLine.TheVariants as form;
ghost use Rattle.graph_check.specs.declared.due.Due.TheVariants as dues;
ghost use Rattle.graph_check.specs.declared.answer.Broken.TheVariants as broken;
ghost use Rattle.graph_check.specs.Checks.{due_checks, first_broken};
ghost use Rattle.graph_check.specs.Comings.{Comes, at_level, with_due};
ghost use Rattle.graph_check.specs.Progress as progress;

use super::Progress;
use crate::answer::Broken;
use crate::{Clause, Due};

impl<'a> Progress<'a> {
    // The clause that a head line breaks, if it breaks any.
    fn head_clause(&self, jobs: u64, cores: u64) -> Option<Clause>
        ensures { result ≡ first_broken (due_checks self.now.table self.now.cores self.now.progress
            dues.Head (form.Head jobs cores)) }
    {
        if jobs != u64::from(self.walk.table().len()) || cores != u64::from(self.walk.cores()) {
            return Some(Clause::K1);
        }
        None
    }

    // Takes the head line.
    pub(super) fn head(&mut self, jobs: u64, cores: u64) -> Result<(), Broken>
        requires due { self.old.progress.due ≡ dues.Head }
        ensures comes { Comes self.old.table self.old.cores self.old.progress (form.Head jobs cores)
            result self.new.progress }
        ensures table { self.new.table ≡ self.old.table }
        ensures cores { self.new.cores ≡ self.old.cores }
    {
        if let Some(clause) = self.head_clause(jobs, cores) {
            return Err(Broken::Clause(clause));
        }
        self.due = Due::Level;
        Ok(())
    }

    // The number that a level line is due to have.
    fn level_due(&self) -> u64
        ensures { result ≡ progress.level_due self.now.progress }
    {
        if self.lines == 1 { 0 } else { self.level + 1 }
    }

    // The clause that a level line breaks, if it breaks any.
    fn level_clause(&self, number: u64, count: u64) -> Option<Clause>
        ensures { result ≡ first_broken (due_checks self.now.table self.now.cores self.now.progress
            dues.Level (form.Level number count)) }
    {
        if number != self.level_due() {
            Some(Clause::K2)
        } else if number == 0 && count != 1 {
            Some(Clause::K3)
        } else {
            None
        }
    }

    // Takes a level line.
    pub(super) fn level(&mut self, number: u64, count: u64) -> Result<(), Broken>
        requires due { self.old.progress.due ≡ dues.Level }
        requires fits { IsCertNumber number }
        ensures comes { Comes self.old.table self.old.cores self.old.progress
            (form.Level number count) result self.new.progress }
        ensures table { self.new.table ≡ self.old.table }
        ensures cores { self.new.cores ≡ self.old.cores }
    {
        if let Some(clause) = self.level_clause(number, count) {
            return Err(Broken::Clause(clause));
        }
        self.count = count;
        if number == 0 {
            self.due = Due::Root;
            return Ok(());
        }
        self.begin_level(number)
    }

    // Begins the level of that number, which is not 0.
    fn begin_level(&mut self, number: u64) -> Result<(), Broken>
        requires fits { IsCertNumber number }
        ensures begun { OnOk result (self.new ≡ record self.old {
          progress =
              with_due self.old.table (at_level self.old.progress number);
        }) }
        ensures memory { IfErr result (λ e. e ≡ broken.Memory) }
        ensures table { self.new.table ≡ self.old.table }
        ensures cores { self.new.cores ≡ self.old.cores }
    {
        self.level = number;
        let states = std::mem::replace(&mut self.states, Vec::new(self.alloc));
        let begun = self.walk.begin(states);
        if begun.is_err() {
            return Err(Broken::Memory);
        }
        self.due = self.due_in_level();
        Ok(())
    }
}
