//! What is printed of a check.

ghost use Rattle.std.specs.Prelude.{◌≡◌, ◌++◌, ◌∷◌, [], ◌≤◌, ◌&&◌, IfOk, OnOk, cond, decimal, length};
ghost use Rattle.std.specs.List.{enumerate_from, flat_map};
ghost use Rattle.cert_text.specs.Spelling.{mark_text};
ghost use Rattle.cert_text.specs.declared.line.Mark.TheVariants as marks;
ghost use Rattle.graph_check.specs.Entries.{is_ok_mark};
ghost use Rattle.graph_check.specs.Told.{entries_of};
ghost use Rattle.cert_check.specs.AnswerTexts as texts;
ghost use Rattle.cert_check.specs.AnswerTexts.{are_all_ok, clause_number, entry_text, job_text};

use cert_text::Mark;
use graph_check::{Clause, Yes};
use itoa::Buffer;
use job_model::{Job, JobNo, JobTable};
use sag_time::Span;
use std::alloc::{AllocError, Global};

// A number.
fn put_number(into: &mut Vec<u8>, number: u64) -> Result<(), AllocError>
    ensures { OnOk result (into.new.items ≡ into.old.items ++ decimal number) }
{
    let mut buffer = Buffer::new();
    into.extend_from_slice(buffer.format(number).as_bytes())
}

// A number and a space.
fn put_spaced(into: &mut Vec<u8>, number: u64) -> Result<(), AllocError>
    ensures { OnOk result (into.new.items ≡ into.old.items ++ decimal number ++ 32 ∷ []) }
{
    put_number(into, number)?;
    into.push(b' ')?;
    Ok(())
}

// A mark with its LF.
fn put_mark(into: &mut Vec<u8>, mark: Mark) -> Result<(), AllocError>
    ensures { OnOk result (into.new.items ≡ into.old.items ++ mark_text mark) }
{
    match mark {
        Mark::Ok => into.extend_from_slice(b"ok\n"),
        Mark::Miss => into.extend_from_slice(b"miss\n"),
    }
}

// The line of a job.
fn put_job(into: &mut Vec<u8>, job: &Job, span: Span, mark: Mark) -> Result<(), AllocError>
    ensures { OnOk result (into.new.items ≡ into.old.items
        ++ entry_text job.now.task job.now.job (record { span = span; mark = mark })) }
{
    into.extend_from_slice(b"job ")?;
    put_spaced(into, job.task)?;
    put_spaced(into, job.job)?;
    put_spaced(into, span.lo())?;
    put_spaced(into, span.hi())?;
    put_mark(into, mark)
}

// Whether all marks are ok, with one more.
fn and_ok(all_ok: bool, mark: Mark) -> bool
    ensures { result ≡ (all_ok && is_ok_mark mark) }
{
    match mark {
        Mark::Ok => all_ok,
        Mark::Miss => false,
    }
}

// The mark of a verdict.
fn mark_of(all_ok: bool) -> Mark
    ensures { result ≡ cond all_ok marks.Ok marks.Miss }
{
    if all_ok { Mark::Ok } else { Mark::Miss }
}

// How many jobs have an interval and a mark.
fn count_of(yes: &Yes) -> usize
    ensures count { result ≡ length (entries_of yes.now.spans.items yes.now.marks.items) }
    ensures spans { result ≤ length yes.now.spans.items }
    ensures marks { result ≤ length yes.now.marks.items }
{
    yes.spans.len().min(yes.marks.len())
}

// Writes a line for each job, and tells whether each mark is ok.
fn put_jobs(into: &mut Vec<u8>, table: &JobTable, yes: &Yes) -> Result<bool, AllocError>
    requires { length (entries_of yes.now.spans.items yes.now.marks.items) ≤ length table.now.jobs }
    ensures lines { OnOk result (into.new.items ≡ into.old.items
        ++ flat_map (job_text table.now) (enumerate_from 0 (entries_of yes.now.spans.items yes.now.marks.items))) }
    ensures verdict { IfOk result (λ all. all ≡ are_all_ok (entries_of yes.now.spans.items yes.now.marks.items)) }
{
    let _ = table.len();
    let mut all_ok = true;
    let count = count_of(yes);
    for at in 0..count {
        let mark = yes.marks[at];
        put_job(into, table.job(JobNo(at as u16)), yes.spans[at], mark)?;
        all_ok = and_ok(all_ok, mark);
    }
    Ok(all_ok)
}

/// What is printed of a valid certificate of the table.
#[tactic(auto, unfolding(crate::specs::AnswerTexts::yes_text))]
pub fn yes_text(alloc: Global, table: &JobTable, yes: &Yes) -> Result<Vec<u8>, AllocError>
    requires { length (entries_of yes.now.spans.items yes.now.marks.items) ≤ length table.now.jobs }
    ensures { IfOk result (λ text. text.items
        ≡ texts.yes_text table.now (entries_of yes.now.spans.items yes.now.marks.items)) }
{
    let mut text = Vec::new(alloc);
    text.extend_from_slice(b"yes\n")?;
    let all_ok = put_jobs(&mut text, table, yes)?;
    text.extend_from_slice(b"verdict ")?;
    put_mark(&mut text, mark_of(all_ok))?;
    Ok(text)
}

// The number in a clause's name.
fn number_of(clause: Clause) -> u64
    ensures { result ≡ clause_number clause }
{
    match clause {
        Clause::K1 => 1,
        Clause::K2 => 2,
        Clause::K3 => 3,
        Clause::K4 => 4,
        Clause::K5 => 5,
        Clause::K6 => 6,
        Clause::K7 => 7,
        Clause::K8 => 8,
        Clause::K9 => 9,
        Clause::K10 => 10,
        Clause::K11 => 11,
    }
}

/// What is printed of a certificate that breaks a clause: the clause, and the first line that breaks it, from 1.
#[tactic(auto, unfolding(crate::specs::AnswerTexts::no_text))]
pub fn no_text(alloc: Global, clause: Clause, line: u64) -> Result<Vec<u8>, AllocError>
    ensures { IfOk result (λ text. text.items ≡ texts.no_text (record { clause = clause; line = line })) }
{
    let mut text = Vec::new(alloc);
    text.extend_from_slice(b"no K")?;
    put_number(&mut text, number_of(clause))?;
    text.extend_from_slice(b" line ")?;
    put_number(&mut text, line)?;
    text.push(b'\n')?;
    Ok(text)
}
