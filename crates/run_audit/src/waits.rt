//! The jobs that wait at a moment.

ghost use Rattle.std.specs.Prelude.{All, IfOk, OnOk, length};
ghost use Rattle.run_audit.specs.Entries.{ready_at};
ghost use Rattle.run_audit.specs.Orders.{IsOrder};
ghost use Rattle.run_audit.specs.Waits.{Drops, FindsIn, FindsWaiter, HoldsBy, HoldsNone, IsNextTime, IsWaiter, HasAllReady};

use crate::entries::Entry;
use crate::orders::Moment;
use job_sets::JobNo;
use std::alloc::{AllocError, Global};
use std::cmp::Reverse;
use std::collections::BinaryHeap;
use std::marker::Model;

/// A job that waits: the more urgent first.
#[derive(Clone, Copy, PartialEq, Eq, PartialOrd, Ord)]
pub struct Waiter {
    rank: u16,
    no: JobNo,
}

/// The jobs that are ready by a moment, but for some that have started, and how many of all are ready by then.
#[derive(Drop)]
pub struct Waiters {
    waiting: BinaryHeap<Reverse<Waiter>>,
    passed: usize,
}

impl Model for Waiters {
    ghost use Rattle.std.specs.BinaryHeap.{IsHeap, heap_items};
    ghost use Rattle.run_audit.specs.Waits.{Waiting, most_urgent_first};

    ghost Value = { Waiting };

    ghost view = { λ w. record { waiting = heap_items w.waiting; passed = w.passed } };

    ghost invariant = { λ w. IsHeap most_urgent_first (heap_items w.waiting) };
}

impl Waiters {
    /// No jobs.
    pub fn new(alloc: Global) -> Waiters
        ensures { HoldsNone result }
    {
        Waiters {
            waiting: BinaryHeap::new(alloc),
            passed: 0,
        }
    }

    // Lets those in that are ready by `now`.
    fn admit(&mut self, entries: &[Entry], order: &[Moment], now: u64) -> Result<(), AllocError>
        requires order { IsOrder (ready_at entries.now) (length entries.now) order.now }
        requires holds { HoldsBy entries.now order.now now self.old }
        ensures { OnOk result (HasAllReady entries.now order.now now self.new) }
    {
        while let Some((time, no)) = order.get(self.passed)
            && *time <= now
        {
            let rank = entries[usize::from(no.0)].rank;
            self.waiting.push(Reverse(Waiter { rank, no: *no }))?;
            self.passed += 1;
        }
        Ok(())
    }

    // The most urgent of those that start later. Those that have started are dropped on the way.
    fn first(&mut self, entries: &[Entry], now: u64) -> Option<JobNo>
        requires { All (IsWaiter entries.now now) self.old.waiting }
        ensures drops { Drops entries.now now self.old self.new }
        ensures found { FindsIn entries.now now self.old.waiting result }
    {
        while let Some(Reverse(next)) = self.waiting.peek() {
            let no = next.no;
            if now < entries[usize::from(no.0)].start {
                return Some(no);
            }
            self.waiting.pop();
        }
        None
    }

    /// Goes on to a moment, and gives the most urgent of the jobs that wait then.
    pub fn advance(
        &mut self,
        entries: &[Entry],
        order: &[Moment],
        now: u64,
    ) -> Result<Option<JobNo>, AllocError>
        requires order { IsOrder (ready_at entries.now) (length entries.now) order.now }
        requires holds { HoldsBy entries.now order.now now self.old }
        ensures stands { OnOk result (HasAllReady entries.now order.now now self.new) }
        ensures first { IfOk result (FindsWaiter entries.now now) }
    {
        self.admit(entries, order, now)?;
        Ok(self.first(entries, now))
    }

    /// When the next job is ready that was not let in.
    pub fn next(&self, order: &[Moment]) -> Option<u64>
        ensures { IsNextTime order.now self.now.passed result }
    {
        let (time, _) = order.get(self.passed)?;
        Some(*time)
    }
}
