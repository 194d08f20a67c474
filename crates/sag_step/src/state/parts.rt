//! States of given parts, and whether these have the shape of a state.

ghost use Rattle.std.specs.Prelude.{◌≡◌, ◌<◌, ◌↔◌, IfSome, IsSome, IsTrue, Some, false, length};
ghost use Rattle.job_sets.specs.Subset.{is_member, with_number};
ghost use Rattle.sag_time.specs.Sorted.{is_sorted};
ghost use Rattle.sag_step.specs.declared.TheConstants.{MOST_TIME};
ghost use Rattle.sag_step.specs.Shape.{IsState, IsUpTo, Shaped};

use super::State;
use crate::tracking::{lists_all, tracks, tracks_child};
use job_model::JobTable;
use job_sets::{JobNo, JobSet};
use sag_time::Avail;
use start_windows::Ends;

impl State {
    /// The state of these parts, if it is one of the table on so many cores; else they are dropped.
    pub fn from_parts(
        table: &JobTable,
        cores: u16,
        set: JobSet,
        low: Avail,
        high: Avail,
        ends: Ends,
        last: JobSet,
    ) -> Option<State>
        requires of_table { set.size ≡ length table.now.jobs }
        requires last_of_table { last.size ≡ length table.now.jobs }
        requires in_limit { IsUpTo MOST_TIME
            (record { set = set; low = low; high = high; ends = ends.items; last = last }) }
        ensures parts { IfSome result (λ s. s ≡ record {
          state = record { set = set; low = low; high = high; ends = ends.items; last = last };
          room = ends.room;
        }) }
        ensures shaped { IsSome result ↔ Shaped table.now cores
            (record { set = set; low = low; high = high; ends = ends.items; last = last }) }
    {
        let state = State {
            set,
            low,
            high,
            ends,
            last,
        };
        if !state.is_state(table, cores) {
            return None;
        }
        Some(state)
    }

    /// The state of these parts, if it is one of the table on so many cores, where its set is that of
    /// this one, which is a state, with the job; else they are dropped.
    pub fn child_from_parts(
        &self,
        table: &JobTable,
        cores: u16,
        job: JobNo,
        set: JobSet,
        low: Avail,
        high: Avail,
        ends: Ends,
        last: JobSet,
    ) -> Option<State>
        requires parent { IsState table.now cores self.now.state }
        requires new { is_member job self.now.state.set.members ≡ false }
        requires child { set.members ≡ with_number job self.now.state.set.members }
        requires of_table { set.size ≡ length table.now.jobs }
        requires last_of_table { last.size ≡ length table.now.jobs }
        requires in_limit { IsUpTo MOST_TIME
            (record { set = set; low = low; high = high; ends = ends.items; last = last }) }
        ensures parts { IfSome result (λ s. s ≡ record {
          state = record { set = set; low = low; high = high; ends = ends.items; last = last };
          room = ends.room;
        }) }
        ensures shaped { IsSome result ↔ Shaped table.now cores
            (record { set = set; low = low; high = high; ends = ends.items; last = last }) }
    {
        let state = State {
            set,
            low,
            high,
            ends,
            last,
        };
        if !state.is_child(self, table, cores, job) {
            return None;
        }
        Some(state)
    }

    // Whether it is a state of the table on so many cores.
    fn is_state(&self, table: &JobTable, cores: u16) -> bool
        requires { self.now.state.set.size ≡ length table.now.jobs }
        ensures { IsTrue result ↔ IsState table.now cores self.now.state }
    {
        if !self.has_cores(cores) {
            return false;
        }
        if !self.low.below(&self.high) {
            return false;
        }
        tracks(&self.ends, table, &self.set) && lists_all(&self.ends, &self.last)
    }

    /// Whether it is a state of the table on so many cores, where its set is that of the parent, which
    /// is one, with the job.
    pub fn is_child(&self, parent: &State, table: &JobTable, cores: u16, job: JobNo) -> bool
        requires of_table { self.now.state.set.size ≡ length table.now.jobs }
        requires parent { IsState table.now cores parent.now.state }
        requires set { self.now.state.set.members ≡ with_number job parent.now.state.set.members }
        requires new { is_member job parent.now.state.set.members ≡ false }
        ensures { IsTrue result ↔ IsState table.now cores self.now.state }
    {
        if !self.has_cores(cores) {
            return false;
        }
        if !self.low.below(&self.high) {
            return false;
        }
        tracks_child(&self.ends, &parent.ends, table, &self.set, &parent.set, job)
            && lists_all(&self.ends, &self.last)
    }

    // Whether it has so many cores, and one at least.
    fn has_cores(&self, cores: u16) -> bool
        ensures cores { IsTrue result ↔ (0 < cores) × (length self.now.state.low ≡ cores)
            × (length self.now.state.high ≡ cores) }
        ensures low { IsTrue (is_sorted self.now.state.low) }
        ensures high { IsTrue (is_sorted self.now.state.high) }
    {
        let low = self.low.len();
        let high = self.high.len();
        cores > 0 && low == cores && high == cores
    }
}
