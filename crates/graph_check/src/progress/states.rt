//! The root line, and state lines.

ghost use Rattle.std.specs.Prelude.{◌≡◌, ◌+◌, ◌++◌, ◌∷◌, [], ◌<◌, IfErr, IfNone, IfOk, IfSome, IsTrue, None, OnOk, false, Some};
ghost use Rattle.cert_text.specs.Grammar.{second_version};
ghost use Rattle.cert_text.specs.Spelling.{FitsPairs, FitsState};
ghost use Rattle.cert_text.specs.declared.line.CertLine.TheVariants as form;
ghost use Rattle.graph_check.specs.declared.due.Due.TheVariants as dues;
ghost use Rattle.graph_check.specs.declared.answer.Broken.TheVariants as broken;
ghost use Rattle.graph_check.specs.Checks.{due_checks, first_broken};
ghost use Rattle.graph_check.specs.Comings.{Comes, IfClause, IsOrigin, child_members, has_candidate, with_due};
ghost use Rattle.graph_check.specs.Entries.{root_from, state_from};
ghost use Rattle.graph_check.specs.Turns.{IsLevelState};

use super::{Progress, job_number};
use crate::Clause;
use crate::answer::Broken;
use crate::level_state::LevelState;
use crate::line_states::{child_of_line, state_of_line};
use cert_text::{EndOf, Pair};
use job_model::JobNo;
use job_sets::JobSet;
use sag_step::{State, root_is_shaped, shaped_are_comparable};
use start_windows::{candidate, front_from, fronts_are_handed_down};

impl<'a> Progress<'a> {
    // The state of a root line, or K5 or K3.
    fn root_state(&self, pairs: &[Pair]) -> Result<LevelState, Broken>
        requires fits { FitsPairs second_version pairs.now }
        ensures state { IfOk result (λ s. s.state.state ≡ root_from self.now.table pairs.now) }
        ensures fit { IfOk result (λ s. IsLevelState self.now.table self.now.cores s) }
        ensures passes { OnOk result (first_broken (due_checks self.now.table self.now.cores
            self.now.progress dues.Root (form.Root pairs.now)) ≡ None) }
        ensures clause { IfErr result (IfClause (λ clause. first_broken (due_checks self.now.table
            self.now.cores self.now.progress dues.Root (form.Root pairs.now)) ≡ Some clause)) }
    {
        root_is_shaped();
        shaped_are_comparable();
        fronts_are_handed_down();
        let table = self.walk.table();
        let cores = self.walk.cores();
        let Ok(set) = JobSet::empty(self.alloc, table.len()) else {
            return Err(Broken::Memory);
        };
        let Ok(found) = state_of_line(self.alloc, table, cores, set, pairs, &[], &[]) else {
            return Err(Broken::Memory);
        };
        let Some(state) = found else {
            return Err(Broken::Clause(Clause::K5));
        };
        let Ok(root) = State::root(self.alloc, table, cores) else {
            return Err(Broken::Memory);
        };
        if !state.covers(&root) {
            return Err(Broken::Clause(Clause::K3));
        }
        Ok(LevelState { state, front: 0 })
    }

    // Takes the root line.
    pub(super) fn root(&mut self, pairs: &[Pair]) -> Result<(), Broken>
        requires due { self.old.progress.due ≡ dues.Root }
        requires fits { FitsPairs second_version pairs.now }
        ensures comes { Comes self.old.table self.old.cores self.old.progress
            (form.Root pairs.now) result self.new.progress }
        ensures table { self.new.table ≡ self.old.table }
        ensures cores { self.new.cores ≡ self.old.cores }
    {
        match self.root_state(pairs) {
            Ok(state) => {
                self.states.clear();
                self.add_state(state)
            }
            Err(broken) => Err(broken),
        }
    }

    // Appends a state to those of the level.
    fn add_state(&mut self, state: LevelState) -> Result<(), Broken>
        requires { IsLevelState self.old.table self.old.cores state }
        ensures added { OnOk result (self.new ≡ record self.old {
          progress =
              with_due self.old.table (record self.old.progress {
                states = self.old.progress.states ++ state.state.state ∷ [];
              });
        }) }
        ensures memory { IfErr result (λ e. e ≡ broken.Memory) }
        ensures table { self.new.table ≡ self.old.table }
        ensures cores { self.new.cores ≡ self.old.cores }
    {
        let pushed = self.states.push(state);
        if pushed.is_err() {
            return Err(Broken::Memory);
        }
        self.due = self.due_in_level();
        Ok(())
    }

    // The parent that a state line names and the job that it adds, if the parent is there and has the
    // job for a candidate.
    fn origin(&self, parent: u64, job: u64) -> Option<(&LevelState, JobNo)>
        ensures some { IfSome result (λ o. IsOrigin self.now.table self.now.cores
            self.now.progress.before parent job o.0.now o.1) }
        ensures none { IfNone result
            (has_candidate self.now.table self.now.progress.before parent job ≡ false) }
    {
        let table = self.walk.table();
        let Some(parent) = self.walk.state(parent) else {
            return None;
        };
        let Some(job) = job_number(table, job) else {
            return None;
        };
        if !candidate(table, parent.state.set(), job) {
            return None;
        }
        Some((parent, job))
    }

    // The state of a state line, or K4 or K5.
    fn child_state(
        &self,
        parent: u64,
        job: u64,
        pairs: &[Pair],
        ends: &[EndOf],
        last: &[u64],
    ) -> Result<LevelState, Broken>
        requires fits { FitsState second_version parent job pairs.now ends.now last.now }
        ensures state { IfOk result (λ s. s.state.state ≡ state_from self.now.table
            (child_members self.now.progress.before parent job) pairs.now ends.now last.now) }
        ensures parent { OnOk result (IsTrue (has_candidate self.now.table self.now.progress.before parent job)) }
        ensures fit { IfOk result (λ s. IsLevelState self.now.table self.now.cores s) }
        ensures passes { OnOk result (first_broken (due_checks self.now.table self.now.cores
            self.now.progress dues.State (form.State parent job pairs.now ends.now last.now)) ≡ None) }
        ensures clause { IfErr result (IfClause (λ clause. first_broken (due_checks self.now.table
            self.now.cores self.now.progress dues.State (form.State parent job pairs.now ends.now last.now))
            ≡ Some clause)) }
    {
        fronts_are_handed_down();
        let Some(origin) = self.origin(parent, job) else {
            return Err(Broken::Clause(Clause::K4));
        };
        let table = self.walk.table();
        let cores = self.walk.cores();
        let (from, number) = origin;
        let Ok(found) = child_of_line(
            self.alloc,
            table,
            cores,
            &from.state,
            number,
            pairs,
            ends,
            last,
        ) else {
            return Err(Broken::Memory);
        };
        let Some(state) = found else {
            return Err(Broken::Clause(Clause::K5));
        };
        let front = front_from(table, state.set(), from.front);
        Ok(LevelState { state, front })
    }

    // Takes a state line.
    pub(super) fn state(
        &mut self,
        parent: u64,
        job: u64,
        pairs: &[Pair],
        ends: &[EndOf],
        last: &[u64],
    ) -> Result<(), Broken>
        requires due { self.old.progress.due ≡ dues.State }
        requires fits { FitsState second_version parent job pairs.now ends.now last.now }
        ensures comes { Comes self.old.table self.old.cores self.old.progress
            (form.State parent job pairs.now ends.now last.now) result self.new.progress }
        ensures table { self.new.table ≡ self.old.table }
        ensures cores { self.new.cores ≡ self.old.cores }
    {
        match self.child_state(parent, job, pairs, ends, last) {
            Ok(state) => self.add_state(state),
            Err(broken) => Err(broken),
        }
    }
}
