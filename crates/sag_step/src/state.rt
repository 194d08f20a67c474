//! System states.

ghost use Rattle.std.specs.Prelude.{◌≡◌, ◌+◌, ◌<◌, IfOk, IsTrue, OnOk, Some, length, nat_le};
ghost use Rattle.std.specs.Cmp.Lexicographic.{pointwise};
ghost use Rattle.sag_step.specs.declared.TheConstants.{MOST_STEP_TIME};
ghost use Rattle.sag_step.specs.Next.{next};
ghost use Rattle.sag_step.specs.Shape.{IsState, IsUpTo};
ghost use Rattle.sag_step.specs.State.{first_core, root, state_window};

mod merging;
mod parts;

use crate::Steps;
use crate::ends::{assign_ends, copy_ends, count_last, end_predecessors, keep_last, keep_tracked};
use job_model::JobTable;
use job_sets::{JobNo, JobSet};
use sag_time::{Avail, Span};
use start_windows::{Ends, StartWindow};
use std::alloc::{AllocError, Global};
use std::marker::Model;
use std::sync::ledger::Ledger;

/// What is known once some jobs have started: which they are, from when on cores are possibly and
/// certainly free, when those jobs finish that others still wait for, and which of them are surely
/// the last on their cores.
#[derive(Drop)]
pub struct State {
    set: JobSet,
    low: Avail,
    high: Avail,
    ends: Ends,
    last: JobSet,
}

impl Model for State {
    ghost use Rattle.std.specs.Prelude.{◌≡◌};
    ghost use Rattle.sag_step.specs.State.{HeldState};

    ghost Value = { HeldState };

    ghost view = { λ s. record {
      state = record { set = s.set; low = s.low; high = s.high; ends = s.ends.items; last = s.last };
      room = s.ends.room;
    } };

    ghost invariant = { λ s. s.last.size ≡ s.set.size };
}

impl State {
    // No job has started, and there is room for so many ends.
    fn empty(alloc: Global, table: &JobTable, cores: u16, room: u16) -> Result<State, AllocError>
        ensures { IfOk result (λ s. s ≡ record { state = root table.now cores; room = room }) }
    {
        Ok(State {
            set: JobSet::empty(alloc, table.len())?,
            low: Avail::zeros(alloc, cores)?,
            high: Avail::zeros(alloc, cores)?,
            ends: Ends::with_room(alloc, room)?,
            last: JobSet::empty(alloc, table.len())?,
        })
    }

    /// The state before any job has started, without room for ends.
    pub fn root(alloc: Global, table: &JobTable, cores: u16) -> Result<State, AllocError>
        ensures { IfOk result (λ s. s ≡ record { state = root table.now cores; room = 0 }) }
    {
        State::empty(alloc, table, cores, 0)
    }

    /// The state before any job has started, with room for the end of each job.
    pub fn scratch(alloc: Global, table: &JobTable, cores: u16) -> Result<State, AllocError>
        ensures { IfOk result (λ s. s
            ≡ record { state = root table.now cores; room = length table.now.jobs }) }
    {
        State::empty(alloc, table, cores, table.len())
    }

    /// An equal state, with room for its own ends alone.
    pub fn copy(&self, alloc: Global) -> Result<State, AllocError>
        ensures { IfOk result (λ s. s
            ≡ record { state = self.now.state; room = length self.now.state.ends }) }
    {
        Ok(State {
            set: self.set.copy(alloc)?,
            low: self.low.copy(alloc)?,
            high: self.high.copy(alloc)?,
            ends: copy_ends(alloc, &self.ends)?,
            last: self.last.copy(alloc)?,
        })
    }

    /// Becomes an equal state. Memory is taken only where its room is not enough; where there is
    /// none, it is of no more use.
    pub fn assign(&mut self, alloc: Global, other: &State) -> Result<(), AllocError>
        requires size { self.old.state.set.size ≡ other.now.state.set.size }
        requires low { length self.old.state.low ≡ length other.now.state.low }
        requires high { length self.old.state.high ≡ length other.now.state.high }
        ensures { OnOk result (self.new.state ≡ other.now.state) }
    {
        assign_ends(alloc, &mut self.ends, &other.ends)?;
        self.set.copy_from(&other.set);
        self.low.copy_from(&other.low);
        self.high.copy_from(&other.high);
        self.last.copy_from(&other.last);
        Ok(())
    }

    /// The jobs that have started.
    pub fn set(&self) -> &JobSet
        ensures { result.now ≡ self.now.state.set }
    {
        &self.set
    }

    /// From when on so many cores, and one more, are possibly free.
    pub fn low(&self) -> &Avail
        ensures { result.now ≡ self.now.state.low }
    {
        &self.low
    }

    /// From when on so many cores, and one more, are certainly free.
    pub fn high(&self) -> &Avail
        ensures { result.now ≡ self.now.state.high }
    {
        &self.high
    }

    /// From when on a core is possibly free, and from when on one is certainly free.
    pub fn first_core(&self) -> Span
        requires some { 0 < length self.now.state.low }
        requires order { IsTrue (pointwise nat_le self.now.state.low self.now.state.high) }
        ensures { result ≡ first_core self.now.state }
    {
        Span::new(self.low.at(0), self.high.at(0)).unwrap()
    }

    /// When the jobs finish that have started and that others wait for.
    pub fn ends(&self) -> &Ends
        ensures { result.now ≡ record { items = self.now.state.ends; room = self.now.room } }
    {
        &self.ends
    }

    /// Those of these jobs that are surely the last on their cores.
    pub fn last(&self) -> &JobSet
        ensures last { result.now ≡ self.now.state.last }
        ensures size { result.now.size ≡ self.now.state.set.size }
    {
        &self.last
    }

    /// How many ends it can hold without memory.
    pub fn room(&self) -> u16
        ensures { result ≡ self.now.room }
    {
        self.ends.room()
    }

    /// Makes `into` the state after the job has started in its window, and counts one step.
    pub fn step_into<L: Ledger>(
        &self,
        table: &JobTable,
        job: JobNo,
        window: StartWindow,
        into: &mut State,
        steps: &mut Steps<L>,
    )
        requires state { IsState table.now (length self.now.state.low) self.now.state }
        requires into { IsState table.now (length self.now.state.low) into.old.state }
        requires in_limit { IsUpTo MOST_STEP_TIME self.now.state }
        requires window { state_window table.now self.now.state job ≡ Some window }
        requires room { length self.now.state.ends < into.old.room }
        ensures next { into.new.state ≡ next table.now self.now.state job window }
        ensures room { into.new.room ≡ into.old.room }
        ensures counted { steps.new ≡ steps.old + 1 }
    {
        let earliest = window.est + table.job(job).cmin;
        let latest = window.lst + table.job(job).cmax;
        into.set.copy_from(&self.set);
        into.set.add(job);
        into.low.copy_from(&self.low);
        into.low.replace_first(window.est, earliest);
        into.high.copy_from(&self.high);
        let free = count_last(table, &self.last, job, self.high.len());
        into.high.cap_first(&self.low, free, window.lst);
        into.high.replace_first(window.est, latest);
        let finish = Span::new(earliest, latest).unwrap();
        keep_tracked(&mut into.ends, &self.ends, table, &into.set, job, finish);
        end_predecessors(&mut into.ends, table, job, window.lst);
        keep_last(
            &mut into.last,
            &self.last,
            &self.ends,
            table,
            &into.set,
            job,
            window.lst,
        );
        steps.count();
    }
}
