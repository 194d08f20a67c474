//! A checker, which reads the lines of a certificate one by one.

ghost use Rattle.std.specs.Prelude.{◌≡◌, ◌+◌, ◌≤◌, ◌<◌, ◌++◌, ◌∷◌, [], ◌^◌, ◌↔◌, List, IfOk, IfSome, IsOk, IsSomeAnd, Some};
ghost use Rattle.job_model.specs.declared.limits.TheConstants.{MOST_CORES};
ghost use Rattle.cert_text.specs.declared.line.CertLine.{CertLine as Line};
ghost use Rattle.cert_text.specs.Grammar.{second_version};
ghost use Rattle.cert_text.specs.Spelling.{FitsLine};
ghost use Rattle.graph_check.specs.Answers as answers;
ghost use Rattle.graph_check.specs.Answers.{Finishes, IfFailure, IfProgress, IsProgressAnd, TellsKept};
ghost use Rattle.graph_check.specs.Bounds.{HoldInEachRun};
ghost use Rattle.graph_check.specs.Kept.{kept, with_line};
ghost use Rattle.graph_check.specs.Told.{entries_of, job_entries};
ghost use Rattle.graph_check.specs.Valid.{Valid};

use crate::answer::{Broken, CheckAnswer, Yes};
use crate::laws::a_yes_is_sound;
use crate::progress::Progress;
use crate::{Clause, Due};
use cert_text::CertLine;
use job_model::JobTable;
use std::alloc::{AllocError, Global};
use std::marker::Model;

/// Reads the lines of a certificate one by one: `new`, a `step` for each line, and `finish`. It keeps the states of two
/// levels, and no line. After a no each further `step` and `finish` give the same no, and no states are kept any more. After
/// want of memory they say so from then on, and nothing is known of the lines.
#[derive(Drop)]
pub struct Checker<'a> {
    progress: Progress<'a>,
    answer: Option<CheckAnswer>,
}

impl<'a> Model for Checker<'a> {
    ghost use Rattle.std.specs.Prelude.{◌≡◌, ◌≤◌, ◌^◌, List, IfNone, Ok};
    ghost use Rattle.cert_text.specs.declared.line.CertLine.{CertLine as Line};
    ghost use Rattle.graph_check.specs.Kept.{HeldChecker, kept};

    ghost Value = { HeldChecker };

    ghost use Rattle.graph_check.specs.Answers.{kept_of};

    ghost view = { λ c. record {
      table = c.progress.table;
      cores = c.progress.cores;
      kept = kept_of c.answer c.progress.progress;
    } };

    ghost invariant = { λ c. IfNone c.answer
        ((c.progress.progress.edges ≤ c.progress.progress.lines) × (c.progress.progress.lines ≤ 2 ^ 63)
        × ((lines : List Line) × (kept c.progress.table c.progress.cores lines ≡ Ok c.progress.progress))) };
}

// The answer where a line is not taken.
fn answer_at(broken: Broken, line: u64) -> CheckAnswer
    ensures { result ≡ answers.answer_at broken line }
{
    match broken {
        Broken::Clause(clause) => CheckAnswer::No { clause, line },
        Broken::Memory => CheckAnswer::Memory,
    }
}

impl<'a> Checker<'a> {
    /// A checker of certificates of the table on so many cores, before the first line.
    pub fn new(alloc: Global, table: &'a JobTable, cores: u16) -> Result<Checker<'a>, AllocError>
        requires some { 1 ≤ cores }
        requires few { cores ≤ MOST_CORES }
        ensures { IfOk result (λ c. c
            ≡ record { table = table.now; cores = cores; kept = Some (kept table.now cores []) }) }
    {
        let progress = Progress::new(alloc, table, cores)?;
        Ok(Checker {
            progress,
            answer: None,
        })
    }

    /// Takes a line. Where there is memory, what is kept is that of the lines with this one; a failure is kept, and its
    /// clause and line are the answer from then on, and so is want of memory.
    pub fn step(&mut self, line: CertLine) -> Result<(), CheckAnswer>
        requires fits { FitsLine second_version line }
        requires few_lines { IfProgress self.old.kept (λ progress. progress.lines < 2 ^ 63) }
        ensures table { self.new.table ≡ self.old.table }
        ensures cores { self.new.cores ≡ self.old.cores }
        ensures step { IfSome self.new.kept (λ now. IsSomeAnd self.old.kept (λ before. now
            ≡ with_line self.old.table self.old.cores before line)) }
        ensures kept { IfSome self.new.kept (λ now. (lines : List Line)
            → self.old.kept ≡ Some (kept self.old.table self.old.cores lines)
            → now ≡ kept self.old.table self.old.cores (lines ++ line ∷ [])) }
        ensures count { IfProgress self.new.kept (λ now. IsProgressAnd self.old.kept (λ before.
            now.lines ≡ before.lines + 1)) }
        ensures stays { IfFailure self.old.kept (self.new ≡ self.old) }
        ensures answer { TellsKept self.new.kept result }
    {
        if let Some(answer) = self.answer {
            return Err(answer);
        }
        let number = self.progress.lines() + 1;
        match self.progress.step(&line) {
            Ok(()) => Ok(()),
            Err(broken) => {
                let answer = answer_at(broken, number);
                self.answer = Some(answer);
                self.progress.forget_states();
                Err(answer)
            }
        }
    }

    // What the end of the lines gives.
    fn end(self) -> Result<Yes, CheckAnswer>
        ensures { Finishes self.entry.kept result }
    {
        if let Some(answer) = self.answer {
            return Err(answer);
        }
        match self.progress.due() {
            Due::Nothing => Ok(self.progress.into_jobs()),
            _ => Err(CheckAnswer::No {
                clause: Clause::K2,
                line: self.progress.lines() + 1,
            }),
        }
    }

    /// Ends the lines: yes exactly where they are valid, with the intervals and marks of the job lines. In each legal run
    /// of every scenario each job then finishes within its interval, and by its deadline where its mark is ok.
    pub fn finish(self) -> Result<Yes, CheckAnswer>
        ensures ends { Finishes self.entry.kept result }
        ensures valid { (lines : List Line)
            → self.entry.kept ≡ Some (kept self.entry.table self.entry.cores lines)
            → IsOk result ↔ Valid self.entry.table self.entry.cores lines }
        ensures jobs { IfOk result (λ yes. (lines : List Line)
            → self.entry.kept ≡ Some (kept self.entry.table self.entry.cores lines)
            → entries_of yes.spans.items yes.marks.items ≡ job_entries lines) }
        ensures sound { IfOk result (λ yes. HoldInEachRun self.entry.table self.entry.cores
            (entries_of yes.spans.items yes.marks.items)) }
    {
        a_yes_is_sound();
        let _ = self.progress.table().len();
        self.end()
    }
}
