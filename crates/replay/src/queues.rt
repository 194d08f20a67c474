//! The jobs that are not dispatched yet, and what they wait for.
ghost use Rattle.std.specs.Prelude.{◌≡◌, ◌==◌, ℕ, ◌<◌, ◌≤◌, [], length, All, count_by, IfOk, OnOk, MatchOption};
ghost use Rattle.job_model.specs.Scenario.{Fits};
ghost use Rattle.job_model.specs.Table.{successors};
ghost use Rattle.replay.specs.Queues.{urgency_of, missing_of, HasAll, StaysQueued, IsNextReady, TakesFirst, Counts, Unblocks};

use job_model::{JobNo, JobTable, Scenario};
use std::alloc::{AllocError, Global};
use std::cmp::Reverse;
use std::collections::BinaryHeap;
use std::marker::Model;

/// A job that is ready later: the earlier time first.
#[derive(Clone, Copy, PartialEq, Eq, PartialOrd, Ord)]
pub(crate) struct Arrival {
    time: u64,
    no: JobNo,
}

/// How far a job is from being ready.
#[derive(Clone, Copy)]
pub(crate) struct Readiness {
    // how many of its predecessors are not dispatched
    missing: usize,
    // the latest of its release and of the finishes of the others
    time: u64,
}

/// A job that waits for a core: the more urgent first.
#[derive(Clone, Copy, PartialEq, Eq, PartialOrd, Ord)]
pub(crate) struct Urgency {
    // how many jobs of the table are more urgent
    rank: u16,
    pub no: JobNo,
}

impl Urgency {
    // That job, with its urgency.
    fn of(table: &JobTable, no: JobNo) -> Urgency
        requires { no < length table.now.jobs }
        ensures { result ≡ urgency_of table.now no }
    {
        Urgency {
            rank: table.rank(no),
            no,
        }
    }
}

/// The jobs that wait for a core, those that are ready later, and what each job still lacks.
#[derive(Drop)]
pub(crate) struct Queues {
    waiting: BinaryHeap<Reverse<Urgency>>,
    later: BinaryHeap<Reverse<Arrival>>,
    readiness: Vec<Readiness>,
}

impl Model for Queues {
    ghost use Rattle.std.specs.BinaryHeap.{IsHeap, heap_items};
    ghost use Rattle.replay.specs.Queues.{Queued, soonest_first, urgent_first};

    ghost Value = { Queued };

    ghost view = { λ q. record {
      waiting = heap_items q.waiting;
      later = heap_items q.later;
      readiness = q.readiness.items;
    } };

    ghost invariant = { λ q.
        IsHeap urgent_first (heap_items q.waiting) × IsHeap soonest_first (heap_items q.later) };
}

impl Queues {
    /// All jobs of the table: those without predecessors come when they are released.
    pub fn new(alloc: Global, table: &JobTable, scenario: &Scenario) -> Result<Queues, AllocError>
        requires { Fits table.now scenario.now }
        ensures { IfOk result (HasAll table.now scenario.now) }
    {
        let count = usize::from(table.len());
        let waiting = BinaryHeap::with_capacity(alloc, count)?;
        let mut later = BinaryHeap::with_capacity(alloc, count)?;
        let mut readiness = Vec::with_capacity(alloc, count)?;
        for no in 0..table.len() {
            let no = JobNo(no);
            let missing = table.preds(no).len();
            let time = scenario.release(no);
            readiness.push(Readiness { missing, time })?;
            if missing == 0 {
                later.push(Reverse(Arrival { time, no }))?;
            }
        }
        Ok(Queues {
            waiting,
            later,
            readiness,
        })
    }

    /// The first time from `from` on at which a job waits.
    pub fn next_ready(&self, from: u64) -> Option<u64>
        ensures { MatchOption result
            ((self.now.waiting ≡ []) × (self.now.later ≡ []))
            (IsNextReady self.now from) }
    {
        if self.waiting.is_empty() {
            self.later.peek().map(|next| next.0.time.max(from))
        } else {
            Some(from)
        }
    }

    /// Lets those wait for a core that are ready by `now`.
    pub fn admit(&mut self, table: &JobTable, now: u64) -> Result<(), AllocError>
        requires { All (λ e. e.0.no < length table.now.jobs) self.old.later }
        ensures kept { OnOk result (StaysQueued table.now now self.old self.new) }
        ensures rest { OnOk result (All (λ e. now < e.0.time) self.new.later) }
    {
        while let Some(Reverse(next)) = self.later.peek()
            && next.time <= now
        {
            let key = Urgency::of(table, next.no);
            self.waiting.push(Reverse(key))?;
            self.later.pop();
        }
        Ok(())
    }

    /// The most urgent of those that wait, which is then no longer there.
    pub fn take(&mut self) -> Option<Urgency>
        ensures { MatchOption result (self.old.waiting ≡ []) (TakesFirst self.old self.new) }
    {
        let Reverse(first) = self.waiting.pop()?;
        Some(first)
    }

    // One more predecessor of the job is dispatched, and finishes then: after the last one it comes when
    // it is ready.
    fn count_predecessor(&mut self, no: JobNo, finish: u64) -> Result<(), AllocError>
        requires { 1 ≤ missing_of self.old.readiness no }
        ensures { OnOk result (Counts self.old self.new finish no) }
    {
        let place = usize::from(no.0);
        let before = self.readiness[place];
        let missing = before.missing - 1;
        let time = before.time.max(finish);
        self.readiness[place] = Readiness { missing, time };
        if missing == 0 {
            self.later.push(Reverse(Arrival { time, no }))?;
        }
        Ok(())
    }

    /// Counts the job, which finishes then, for its successors: those that lack no other predecessor come
    /// when they are ready.
    pub fn unblock(&mut self, table: &JobTable, job: JobNo, finish: u64) -> Result<(), AllocError>
        requires job { job < length table.now.jobs }
        requires missing { (j : ℕ) → count_by (λ s. s == j) (successors table.now job) ≤ missing_of self.old.readiness j }
        ensures { OnOk result (Unblocks table.now self.old self.new finish (successors table.now job)) }
    {
        for next in table.succs(job) {
            self.count_predecessor(*next, finish)?;
        }
        Ok(())
    }
}
