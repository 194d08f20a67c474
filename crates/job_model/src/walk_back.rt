//! A walk back along edges, from a job to those that it waits for, that looks for a cycle.

ghost use Rattle.std.specs.Bool.{OnFalse, OnTrue};
ghost use Rattle.std.specs.Prelude.{◌≡◌, ◌<◌, [], IfOk, length, slice_set};
ghost use Rattle.job_model.specs.Cycles.{HoldsCycle};
ghost use Rattle.job_model.specs.Marks.{AreFinished, Finds, HasGoneBack, IsPath};
ghost use Rattle.job_model.specs.Neighbours.{JoinJobs};

use crate::JobNo;
use crate::edges::Edges;
use std::alloc::AllocError;

/// How far a walk back along the edges has come with a job.
#[derive(Clone, Copy)]
pub(crate) enum Mark {
    /// The walk has not met it.
    Unseen,
    /// It is met, and some of its predecessors are not finished.
    OnPath,
    /// It and its predecessors are finished.
    Finished,
}

/// A job on the path of a walk, and how many of its predecessors the walk has left behind as finished.
#[derive(Clone, Copy)]
pub(crate) struct Visit {
    job: JobNo,
    passed: usize,
}

/// What a walk finds behind a job on its path.
#[derive(Clone, Copy)]
pub(crate) enum Behind {
    /// All predecessors of the job are finished.
    Finished,
    /// One of them is on the path.
    OnPath,
    /// So many of them are finished, and this one is unseen.
    Unseen(usize, JobNo),
}

// Gives the job that mark.
fn set_mark(marks: &mut [Mark], job: JobNo, mark: Mark)
    requires { job < length marks.old }
    ensures { marks.new ≡ slice_set marks.old job mark }
{
    marks[usize::from(job.0)] = mark;
}

// What is behind a job, of which so many predecessors are known to be finished.
fn look_behind(edges: &Edges, job: JobNo, passed: usize, marks: &[Mark]) -> Behind
    requires in_range { JoinJobs (length marks.now) edges.now }
    requires passed { AreFinished edges.now marks.now job passed }
    ensures { Finds edges.now marks.now job result }
{
    let preds = edges.preds(job);
    for place in passed..preds.len() {
        let before = preds[place];
        match marks[usize::from(before.0)] {
            Mark::Unseen => return Behind::Unseen(place, before),
            Mark::OnPath => return Behind::OnPath,
            Mark::Finished => {}
        }
    }
    Behind::Finished
}

/// Whether a walk back from the job comes twice to one job. If not, the job is finished.
/// The path of the walk is kept in a list, which has room for all jobs, and not in nested calls.
pub(crate) fn walks_into_cycle(
    edges: &Edges,
    job: JobNo,
    marks: &mut [Mark],
    path: &mut Vec<Visit>,
) -> Result<bool, AllocError>
    requires in_range { JoinJobs (length marks.old) edges.now }
    requires is_job { job < length marks.old }
    requires no_path { path.old.items ≡ [] }
    requires clear { IsPath edges.now marks.old [] }
    ensures cycle { IfOk result (λ found. OnTrue found (HoldsCycle edges.now)) }
    ensures gone_back { IfOk result (λ found. OnFalse found (HasGoneBack edges.now marks.old marks.new job)) }
    ensures left { IfOk result (λ found. OnFalse found (path.new.items ≡ [])) }
{
    match marks[usize::from(job.0)] {
        Mark::OnPath | Mark::Finished => return Ok(false),
        Mark::Unseen => {}
    }
    set_mark(marks, job, Mark::OnPath);
    path.push(Visit { job, passed: 0 })?;
    while let Some(visit) = path.pop() {
        let here = visit.job;
        match look_behind(edges, here, visit.passed, marks) {
            Behind::OnPath => return Ok(true),
            Behind::Finished => set_mark(marks, here, Mark::Finished),
            Behind::Unseen(passed, before) => {
                set_mark(marks, before, Mark::OnPath);
                path.push(Visit { job: here, passed })?;
                path.push(Visit {
                    job: before,
                    passed: 0,
                })?;
            }
        }
    }
    Ok(false)
}
