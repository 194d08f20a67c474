//! The LF behind a line.

ghost use Rattle.std.specs.Prelude.{◌≡◌, ◌==◌, ◌<◌, [], false, length};
ghost use Rattle.cert_text.specs.Machine.{EndsLine, IsInnerNumber, after_ends, after_number, in_mark, in_word, marked_line, byte_step, word_text};
ghost use Rattle.cert_text.specs.Spelling.{mark_text};
ghost use Rattle.cert_text.specs.Kept.{KeptSpot};

use crate::grammar::Grammar;
use crate::line::{CertLine, EndList, Mark, Numbers, Pair, Pairs};
use crate::machine::StepFault;
use crate::separators::end_of;
use crate::spot::{Draft, Marked, NumberAt, Spot, Standing, Word};
use crate::words::mark_length;
use std::alloc::Global;
use std::mem;

// The root line of the pairs so far.
fn whole_root(alloc: Global, draft: &mut Draft) -> CertLine
    ensures { result ≡ CertLine.Root draft.old.pairs }
{
    CertLine::Root {
        pairs: mem::replace(&mut draft.pairs, Pairs::new(alloc)),
    }
}

// The state line of the items so far.
fn whole_state(alloc: Global, draft: &mut Draft, parent: u64, job: u64) -> CertLine
    ensures { result ≡ CertLine.State parent job draft.old.pairs draft.old.ends draft.old.last }
{
    CertLine::State {
        parent,
        job,
        pairs: mem::replace(&mut draft.pairs, Pairs::new(alloc)),
        ends: mem::replace(&mut draft.ends, EndList::new(alloc)),
        last: mem::replace(&mut draft.last, Numbers::new(alloc)),
    }
}

// Ends a state line behind its first bar or an end, where no last jobs follow.
fn end_behind_ends(
    alloc: Global,
    grammar: Grammar,
    draft: &mut Draft,
    parent: u64,
    job: u64,
) -> Result<CertLine, StepFault>
    ensures { EndsLine (after_ends grammar draft.old parent job 10) result }
{
    if grammar.has_last {
        Err(StepFault::Wrong)
    } else {
        Ok(whole_state(alloc, draft, parent, job))
    }
}

// Ends a line behind a number that is no part of an item.
fn end_by_field(place: NumberAt, value: u64) -> Result<CertLine, StepFault>
    requires { IsInnerNumber place }
    ensures { (g : Grammar) (d : Draft) → EndsLine (after_number g d place value 10) result }
{
    match place {
        NumberAt::HeadCores { jobs } => Ok(CertLine::Head { jobs, cores: value }),
        NumberAt::LevelCount { number } => Ok(CertLine::Level {
            number,
            count: value,
        }),
        NumberAt::EdgeTo {
            from,
            job,
            est,
            lst,
        } => Ok(CertLine::Edge {
            from,
            job,
            est,
            lst,
            to: value,
        }),
        _ => Err(StepFault::Wrong),
    }
}

// Ends a line behind a number.
fn end_by_number(
    alloc: Global,
    grammar: Grammar,
    draft: &mut Draft,
    place: NumberAt,
    value: u64,
) -> Result<CertLine, StepFault>
    ensures { EndsLine (after_number grammar draft.old place value 10) result }
{
    match place {
        NumberAt::RootHi { lo } => {
            draft.pairs.push(Pair { lo, hi: value })?;
            Ok(whole_root(alloc, draft))
        }
        NumberAt::EndHi {
            parent,
            job,
            of,
            lo,
        } => {
            draft.ends.push(end_of(of, lo, value))?;
            end_behind_ends(alloc, grammar, draft, parent, job)
        }
        NumberAt::LastJob { parent, job } => {
            draft.last.push(value)?;
            Ok(whole_state(alloc, draft, parent, job))
        }
        NumberAt::PairHi { .. } | NumberAt::JobHi { .. } => Err(StepFault::Wrong),
        _ => end_by_field(place, value),
    }
}

// Ends a line by the last byte of a word.
fn end_by_word(grammar: Grammar, word: Word, at: usize) -> Result<CertLine, StepFault>
    requires within { at < length (word_text grammar word) }
    requires version { (grammar.version == 10) ≡ false }
    ensures { (d : Draft) → EndsLine (in_word grammar d word at 10) result }
{
    match word {
        Word::End if at == 3 => Ok(CertLine::End),
        _ => Err(StepFault::Wrong),
    }
}

// The line that a mark ends.
fn line_of_mark(marked: Marked, mark: Mark) -> CertLine
    ensures { result ≡ marked_line marked mark }
{
    match marked {
        Marked::Job { number, lo, hi } => CertLine::Job {
            number,
            lo,
            hi,
            mark,
        },
        Marked::Verdict => CertLine::Verdict { mark },
    }
}

// Ends a line by the last byte of a mark.
fn end_by_mark(marked: Marked, mark: Mark, at: usize) -> Result<CertLine, StepFault>
    requires { at < length (mark_text mark) }
    ensures { (d : Draft) → EndsLine (in_mark d marked mark at 10) result }
{
    if at + 1 == mark_length(mark) {
        Ok(line_of_mark(marked, mark))
    } else {
        Err(StepFault::Wrong)
    }
}

/// Takes the LF behind a line.
pub fn end_line(
    alloc: Global,
    grammar: Grammar,
    draft: &mut Draft,
    spot: Spot,
) -> Result<CertLine, StepFault>
    requires version { (grammar.version == 10) ≡ false }
    requires kept { KeptSpot grammar draft.old spot }
    ensures { (s : Standing) → EndsLine (byte_step grammar s draft.old spot 10) result }
{
    match spot {
        Spot::InWord { word, at } => end_by_word(grammar, word, at),
        Spot::Digits { place, value } => end_by_number(alloc, grammar, draft, place, value),
        Spot::Barred { parent, job } => end_behind_ends(alloc, grammar, draft, parent, job),
        Spot::Closed { parent, job } => Ok(whole_state(alloc, draft, parent, job)),
        Spot::InMark { marked, mark, at } => end_by_mark(marked, mark, at),
        _ => Err(StepFault::Wrong),
    }
}
