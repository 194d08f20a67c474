//! What comes behind a number within a line.

ghost use Rattle.std.specs.Prelude.{◌≡◌, ◌==◌, false};
ghost use Rattle.cert_text.specs.Machine.{LeadsTo, IsInnerNumber, after_ends, after_last, after_number, after_root};

use crate::grammar::Grammar;
use crate::line::{EndOf, Pair};
use crate::machine::StepFault;
use crate::spot::{Draft, Marked, NumberAt, Spot};

/// An end of these three numbers.
pub fn end_of(job: u64, lo: u64, hi: u64) -> EndOf
    ensures { result ≡ record { job = job; lo = lo; hi = hi } }
{
    EndOf { job, lo, hi }
}

// Before the mark of a job.
fn mark_due(number: u64, lo: u64, hi: u64) -> Spot
    ensures { result ≡ Spot.MarkDue (Marked.Job number lo hi) }
{
    Spot::MarkDue {
        marked: Marked::Job { number, lo, hi },
    }
}

// Behind a pair of a root line and a space.
fn next_root_pair(grammar: Grammar, draft: &Draft, spot: &mut Spot) -> Result<(), StepFault>
    ensures { LeadsTo (after_root grammar draft.now 32) result draft.now spot.new }
{
    if draft.pairs.as_slice().len() < grammar.most_pairs {
        *spot = Spot::Due {
            place: NumberAt::RootLo,
        };
        Ok(())
    } else {
        Err(StepFault::Wrong)
    }
}

/// Behind the first bar of a state line, or an end, and a space.
pub fn next_end(
    grammar: Grammar,
    draft: &Draft,
    spot: &mut Spot,
    parent: u64,
    job: u64,
) -> Result<(), StepFault>
    ensures { LeadsTo (after_ends grammar draft.now parent job 32) result draft.now spot.new }
{
    if grammar.has_last {
        *spot = Spot::EndGap { parent, job };
        Ok(())
    } else if draft.ends.as_slice().len() < grammar.most_items {
        *spot = Spot::Due {
            place: NumberAt::EndJob { parent, job },
        };
        Ok(())
    } else {
        Err(StepFault::Wrong)
    }
}

/// Behind the second bar of a state line, or a last job, and a space.
pub fn next_last(
    grammar: Grammar,
    draft: &Draft,
    spot: &mut Spot,
    parent: u64,
    job: u64,
) -> Result<(), StepFault>
    ensures { LeadsTo (after_last grammar draft.now parent job 32) result draft.now spot.new }
{
    if draft.last.as_slice().len() < grammar.most_items {
        *spot = Spot::Due {
            place: NumberAt::LastJob { parent, job },
        };
        Ok(())
    } else {
        Err(StepFault::Wrong)
    }
}

// Behind a number that is no part of an item, and a space.
fn next_number(spot: &mut Spot, place: NumberAt, value: u64) -> Result<(), StepFault>
    requires { IsInnerNumber place }
    ensures { (g : Grammar) (d : Draft) → LeadsTo (after_number g d place value 32) result d spot.new }
{
    let next = match place {
        NumberAt::HeadJobs => NumberAt::HeadCores { jobs: value },
        NumberAt::LevelNumber => NumberAt::LevelCount { number: value },
        NumberAt::StateParent => NumberAt::StateJob { parent: value },
        NumberAt::StateJob { parent } => NumberAt::PairLo { parent, job: value },
        NumberAt::EdgeFrom => NumberAt::EdgeJob { from: value },
        NumberAt::EdgeJob { from } => NumberAt::EdgeEst { from, job: value },
        NumberAt::EdgeEst { from, job } => NumberAt::EdgeLst {
            from,
            job,
            est: value,
        },
        NumberAt::EdgeLst { from, job, est } => NumberAt::EdgeTo {
            from,
            job,
            est,
            lst: value,
        },
        NumberAt::JobNumber => NumberAt::JobLo { number: value },
        NumberAt::JobLo { number } => NumberAt::JobHi { number, lo: value },
        _ => return Err(StepFault::Wrong),
    };
    *spot = Spot::Due { place: next };
    Ok(())
}

// Behind a number and a space.
fn behind_space(
    grammar: Grammar,
    draft: &mut Draft,
    spot: &mut Spot,
    place: NumberAt,
    value: u64,
) -> Result<(), StepFault>
    ensures { LeadsTo (after_number grammar draft.old place value 32) result draft.new spot.new }
{
    match place {
        NumberAt::RootHi { lo } => {
            draft.pairs.push(Pair { lo, hi: value })?;
            next_root_pair(grammar, draft, spot)
        }
        NumberAt::PairHi { parent, job, lo } => {
            draft.pairs.push(Pair { lo, hi: value })?;
            *spot = Spot::PairGap { parent, job };
            Ok(())
        }
        NumberAt::EndHi {
            parent,
            job,
            of,
            lo,
        } => {
            draft.ends.push(end_of(of, lo, value))?;
            next_end(grammar, draft, spot, parent, job)
        }
        NumberAt::LastJob { parent, job } => {
            draft.last.push(value)?;
            next_last(grammar, draft, spot, parent, job)
        }
        NumberAt::JobHi { number, lo } => {
            *spot = mark_due(number, lo, value);
            Ok(())
        }
        _ => next_number(spot, place, value),
    }
}

// Behind a number and a colon.
fn behind_colon(spot: &mut Spot, place: NumberAt, value: u64) -> Result<(), StepFault>
    ensures { (g : Grammar) (d : Draft) → LeadsTo (after_number g d place value 58) result d spot.new }
{
    let next = match place {
        NumberAt::RootLo => NumberAt::RootHi { lo: value },
        NumberAt::PairLo { parent, job } => NumberAt::PairHi {
            parent,
            job,
            lo: value,
        },
        NumberAt::EndJob { parent, job } => NumberAt::EndLo {
            parent,
            job,
            of: value,
        },
        NumberAt::EndLo { parent, job, of } => NumberAt::EndHi {
            parent,
            job,
            of,
            lo: value,
        },
        _ => return Err(StepFault::Wrong),
    };
    *spot = Spot::Due { place: next };
    Ok(())
}

/// Takes the byte behind a number, where it is no LF.
pub fn behind_number(
    grammar: Grammar,
    draft: &mut Draft,
    spot: &mut Spot,
    place: NumberAt,
    value: u64,
    byte: u8,
) -> Result<(), StepFault>
    requires { (byte == 10) ≡ false }
    ensures { LeadsTo (after_number grammar draft.old place value byte) result draft.new spot.new }
{
    match byte {
        b' ' => behind_space(grammar, draft, spot, place, value),
        b':' => behind_colon(spot, place, value),
        _ => Err(StepFault::Wrong),
    }
}
