//! A checker as what takes the lines of a certificate.

ghost use Rattle.std.specs.Prelude.{◌≡◌, ◌≤◌, ◌++◌, ◌∷◌, List, [], IfOk, Some};
ghost use Rattle.job_model.specs.declared.limits.TheConstants.{MOST_CORES};
ghost use Rattle.cert_text.specs.Grammar.{second_version};
ghost use Rattle.cert_text.specs.declared.line.CertLine.{CertLine as Line};
ghost use Rattle.cert_text.specs.declared.line.CertLine.TheVariants as form;
ghost use Rattle.graph_check.specs.Kept.{kept};
ghost use Rattle.cert_check.specs.Checks.{EndsLines, TakesLines, checked_lines, fresh_checker};

use crate::cert_end::CertEnd;
use cert_stream::TakeLine;
use cert_text::{CertLine, FeedFault};
use graph_check::{CheckAnswer, Checker, valid_is_kept, valid_is_unbroken};
use job_model::JobTable;
use std::alloc::{AllocError, Global};
use std::marker::Model;

/// A checker that takes the lines of a certificate, also those behind a line that breaks a clause.
#[derive(Drop)]
pub struct LineChecker<'a> {
    checker: Checker<'a>,
}

impl<'a> Model for LineChecker<'a> {
    ghost use Rattle.graph_check.specs.Kept.{HeldChecker};

    ghost Value = { HeldChecker };

    ghost view = { λ c. c.checker };
}

impl<'a> TakeLine for LineChecker<'a> {
    ghost grammar = { second_version };

    ghost count = { λ c. checked_lines c.kept };

    ghost takes = { λ start lines now. TakesLines start lines now };

    fn take_line(&mut self, line: CertLine) -> Result<(), AllocError> {
        match self.checker.step(line) {
            Ok(()) => Ok(()),
            Err(CheckAnswer::No { .. }) => Ok(()),
            Err(CheckAnswer::Memory) => Err(AllocError),
        }
    }
}

impl<'a> LineChecker<'a> {
    /// A checker of certificates of the table on so many cores, before the first line.
    pub fn new(
        alloc: Global,
        table: &'a JobTable,
        cores: u16,
    ) -> Result<LineChecker<'a>, AllocError>
        requires some { 1 ≤ cores }
        requires few { cores ≤ MOST_CORES }
        ensures { IfOk result (λ c. c ≡ fresh_checker table.now cores) }
    {
        Ok(LineChecker {
            checker: Checker::new(alloc, table, cores)?,
        })
    }

    /// What the lines come to, of which the last was the end line.
    pub fn end(self) -> Result<CertEnd, FeedFault>
        ensures { (front : List Line)
            → self.entry.kept ≡ Some (kept self.entry.table self.entry.cores (front ++ form.End ∷ []))
            → EndsLines self.entry.table self.entry.cores (front ++ form.End ∷ []) result }
    {
        valid_is_kept();
        valid_is_unbroken();
        match self.checker.finish() {
            Ok(yes) => Ok(CertEnd::Yes(yes)),
            Err(CheckAnswer::No { clause, line }) => Ok(CertEnd::No { clause, line }),
            Err(CheckAnswer::Memory) => Err(FeedFault::Memory),
        }
    }
}
