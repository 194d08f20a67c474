//! What a checker answers.

ghost use Rattle.std.specs.Prelude.{◌≡◌, ◌++◌, ◌∷◌, [], OnErr, OnOk};

use crate::Clause;
use cert_text::Mark;
use sag_time::Span;
use std::alloc::AllocError;

/// Why a checker says no, or that memory ran out.
#[derive(Clone, Copy, PartialEq, Eq, Debug)]
pub enum CheckAnswer {
    /// The line, counted from 1, breaks the clause, and none before it breaks any.
    No { clause: Clause, line: u64 },
    /// There is no memory.
    Memory,
}

/// Why a line is not taken.
#[derive(Clone, Copy, PartialEq, Eq, Debug)]
pub(crate) enum Broken {
    Clause(Clause),
    Memory,
}

/// Within which intervals the jobs finish, and their marks, by number.
#[derive(Drop)]
pub struct Yes {
    pub spans: Vec<Span>,
    pub marks: Vec<Mark>,
}

impl Yes {
    // Appends a job.
    pub(crate) fn add(&mut self, span: Span, mark: Mark) -> Result<(), AllocError>
        ensures spans { OnOk result (self.new.spans.items ≡ self.old.spans.items ++ span ∷ []) }
        ensures marks { OnOk result (self.new.marks.items ≡ self.old.marks.items ++ mark ∷ []) }
        ensures same_spans { OnErr result (self.new.spans.items ≡ self.old.spans.items) }
        ensures same_marks { OnErr result (self.new.marks.items ≡ self.old.marks.items) }
    {
        self.spans.push(span)?;
        let pushed = self.marks.push(mark);
        if pushed.is_err() {
            self.spans.pop();
        }
        pushed?;
        Ok(())
    }
}
