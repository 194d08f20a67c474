//! The offers of the states of a level, one after another.

ghost use Rattle.std.specs.Prelude.{◌≡◌, ◌+◌, ◌<◌, ◌≤◌, ◌^◌, [], drop, length, slice_get, IfNone, IfOk, IfSome, IsSome, OnOk, Some, None};
ghost use Rattle.std.specs.Option.{option_map};
ghost use Rattle.sag_step.specs.declared.TheConstants.{MOST_STEP_TIME};
ghost use Rattle.sag_step.specs.Next.{next};
ghost use Rattle.sag_step.specs.Shape.{IsState, IsUpTo};
ghost use Rattle.sag_step.specs.State.{state_window};
ghost use Rattle.sag_step.specs.Widen.{widens};
ghost use Rattle.graph_check.specs.Turns.{AreFit, IsFit, IsLevelState, IsStart, offer_at, offers_left, level_states, turn_of, windows_at};

use crate::level_state::LevelState;
use crate::turn::Turn;
use job_model::JobTable;
use job_sets::JobNo;
use sag_step::{
    State, Steps, next_is_state, root_is_shaped, scratch_has_room, shaped_are_comparable,
};
use start_windows::{Prospect, StartWindow, eligible};
use std::alloc::{AllocError, Global};
use std::marker::{Brand, Model};
use std::sync::ledger::{Blank, Ledger};

// A place among the offers of a level.
#[derive(Drop)]
struct Place {
    // the number of a state
    at: usize,
    // the jobs that may be the next in that state, and a place among them
    windows: Vec<(JobNo, StartWindow)>,
    place: usize,
    // room to work in
    found: Vec<Prospect>,
}

/// The offers of the states of a level, one after another. One state at a time has its eligible jobs listed.
#[derive(Drop)]
pub(crate) struct OfferWalk<'a> {
    table: &'a JobTable,
    cores: u16,
    states: Vec<LevelState>,
    place: Place,
    passed: u64,
    // room for the next state of an offer
    scratch: State,
}

impl<'a> Model for OfferWalk<'a> {
    ghost use Rattle.std.specs.Prelude.{◌≡◌, ◌≤◌, length};
    ghost use Rattle.sag_step.specs.Shape.{IsState};
    ghost use Rattle.graph_check.specs.Turns.{AreFit, HeldTurns, StandsAt, level_states};

    ghost Value = { HeldTurns };

    ghost view = { λ w. record {
      table = w.table.now;
      cores = w.cores;
      level = level_states w.states.items;
      passed = w.passed;
    } };

    ghost invariant = { λ w. (1 ≤ w.cores) × AreFit w.table.now w.cores w.states.items
        × StandsAt (record { table = w.table.now; cores = w.cores; level = level_states w.states.items; passed = w.passed })
        w.place.at w.place.windows.items w.place.place
        × IsState w.table.now w.cores w.scratch.state
        × (w.scratch.room ≡ length w.table.now.jobs) };
}

// Lists the jobs that may be the next in the state of that number: none where there is no such state.
fn list_windows(
    table: &JobTable,
    cores: u16,
    states: &[LevelState],
    at: usize,
    found: &mut Vec<Prospect>,
    windows: &mut Vec<(JobNo, StartWindow)>,
) -> Result<(), AllocError>
    requires states { AreFit table.now cores states.now }
    ensures { OnOk result (windows.new.items ≡ windows_at table.now (level_states states.now) at) }
{
    let Some(entry) = states.get(at) else {
        windows.clear();
        return Ok(());
    };
    eligible(
        table,
        entry.state.set(),
        entry.state.ends(),
        entry.state.first_core(),
        entry.front,
        found,
        windows,
    )?;
    Ok(())
}

// Goes on to the next state that has an eligible job, if no window of this one is left.
fn settle(
    table: &JobTable,
    cores: u16,
    states: &[LevelState],
    place: &mut Place,
) -> Result<(), AllocError>
    requires states { AreFit table.now cores states.now }
    requires own { place.old.windows.items ≡ windows_at table.now (level_states states.now) place.old.at }
    ensures own { OnOk result (place.new.windows.items
        ≡ windows_at table.now (level_states states.now) place.new.at) }
    ensures left { OnOk result
        (offers_left table.now (level_states states.now) place.new.at (drop place.new.place place.new.windows.items)
        ≡ offers_left table.now (level_states states.now) place.old.at (drop place.old.place place.old.windows.items)) }
    ensures settled { OnOk result (length place.new.windows.items ≤ place.new.place
        → length (level_states states.now) ≤ place.new.at) }
{
    while place.place >= place.windows.len() && place.at < states.len() {
        place.at += 1;
        place.place = 0;
        list_windows(
            table,
            cores,
            states,
            place.at,
            &mut place.found,
            &mut place.windows,
        )?;
    }
    Ok(())
}

// Makes `into` the state after the job has started in its window.
fn make_next<L: Ledger>(
    blank: Blank,
    table: &JobTable,
    state: &State,
    job: JobNo,
    window: StartWindow,
    into: &mut State,
)
    requires name { blank.name ≡ L.name }
    requires parts { blank.parts ≡ L.parts }
    requires some { 0 < L.parts }
    requires state { IsState table.now (length state.now.state.low) state.now.state }
    requires into { IsState table.now (length state.now.state.low) into.old.state }
    requires in_limit { IsUpTo MOST_STEP_TIME state.now.state }
    requires window { state_window table.now state.now.state job ≡ Some window }
    requires room { length state.now.state.ends < into.old.room }
    ensures next { into.new.state ≡ next table.now state.now.state job window }
    ensures room { into.new.room ≡ into.old.room }
{
    let mut steps = Steps::<L>::new(blank);
    state.step_into(table, job, window, into, &mut steps);
}

impl<'a> OfferWalk<'a> {
    /// The walk of a level without states.
    pub(crate) fn new(
        alloc: Global,
        table: &'a JobTable,
        cores: u16,
    ) -> Result<OfferWalk<'a>, AllocError>
        requires { 1 ≤ cores }
        ensures { IfOk result (λ w. w
            ≡ record { table = table.now; cores = cores; level = []; passed = 0 }) }
    {
        root_is_shaped();
        let scratch = State::scratch(alloc, table, cores)?;
        Ok(OfferWalk {
            table,
            cores,
            states: Vec::new(alloc),
            place: Place {
                at: 0,
                windows: Vec::new(alloc),
                place: 0,
                found: Vec::new(alloc),
            },
            passed: 0,
            scratch,
        })
    }

    /// The table.
    pub(crate) fn table(&self) -> &'a JobTable
        ensures { result.now ≡ self.now.table }
    {
        self.table
    }

    /// The number of cores.
    pub(crate) fn cores(&self) -> u16
        ensures cores { result ≡ self.now.cores }
        ensures some { 1 ≤ self.now.cores }
    {
        self.cores
    }

    /// The state of that number with its front, if there is one.
    pub(crate) fn state(&self, number: u64) -> Option<&LevelState>
        ensures some { IfSome result (λ s. slice_get self.now.level number ≡ Some s.now.state.state) }
        ensures fit { IfSome result (λ s. IsLevelState self.now.table self.now.cores s.now) }
        ensures none { IfNone result (slice_get self.now.level number ≡ None) }
    {
        self.states.get(number as usize)
    }

    /// The offer whose turn it is, if one is left.
    pub(crate) fn turn(&self) -> Option<Turn>
        ensures turn { result ≡ option_map turn_of (offer_at self.now) }
        ensures start { IfSome result (λ turn. IsStart self.now.table turn.job turn.window) }
    {
        let place = &self.place;
        let (job, window) = *place.windows.get(place.place)?;
        Some(Turn {
            from: place.at,
            job,
            window,
        })
    }

    /// Whether all that is possible by the next state of the offer whose turn it is is possible by the state.
    pub(crate) fn is_covered_by(&mut self, state: &State) -> bool
        requires fit { IsFit self.old.table self.old.cores state.now.state }
        requires left { IsSome (offer_at self.old) }
        ensures covers { IfSome (offer_at self.old) (λ offer. result
            ≡ widens state.now.state offer.next) }
        ensures same { self.new ≡ self.old }
    {
        next_is_state();
        let _count = self.table.len();
        scratch_has_room();
        shaped_are_comparable();
        let from = &self.states[self.place.at];
        let (job, window) = self.place.windows[self.place.place];
        make_next::<Brand>(
            Blank::new(1),
            self.table,
            &from.state,
            job,
            window,
            &mut self.scratch,
        );
        state.covers(&self.scratch)
    }

    /// Passes the offer whose turn it is. After want of memory it may be at any place.
    pub(crate) fn pass(&mut self) -> Result<(), AllocError>
        requires few { self.old.passed < 2 ^ 63 }
        requires left { IsSome (offer_at self.old) }
        ensures passed { OnOk result (self.new ≡ record self.old { passed = self.old.passed + 1 }) }
        ensures table { self.new.table ≡ self.old.table }
        ensures cores { self.new.cores ≡ self.old.cores }
    {
        self.place.place += 1;
        self.passed += 1;
        let settled = settle(self.table, self.cores, &self.states, &mut self.place);
        if settled.is_err() {
            self.states.clear();
            self.place.windows.clear();
        }
        settled
    }

    /// Keeps no states any more, and no offers of them.
    pub(crate) fn forget_states(&mut self, alloc: Global)
        ensures table { self.new.table ≡ self.old.table }
        ensures cores { self.new.cores ≡ self.old.cores }
    {
        self.states = Vec::new(alloc);
        self.place.windows = Vec::new(alloc);
    }

    /// Begins with the offers of other states. After want of memory it may be at any place.
    pub(crate) fn begin(&mut self, states: Vec<LevelState>) -> Result<(), AllocError>
        requires fit { AreFit self.old.table self.old.cores states.items }
        ensures begun { OnOk result (self.new
            ≡ record self.old { level = level_states states.items; passed = 0 }) }
        ensures table { self.new.table ≡ self.old.table }
        ensures cores { self.new.cores ≡ self.old.cores }
    {
        self.states = states;
        self.passed = 0;
        let begun = begin_at(self.table, self.cores, &self.states, &mut self.place);
        if begun.is_err() {
            self.states.clear();
            self.place.windows.clear();
        }
        begun
    }
}

// Goes to the first offer of the states.
fn begin_at(
    table: &JobTable,
    cores: u16,
    states: &[LevelState],
    place: &mut Place,
) -> Result<(), AllocError>
    requires states { AreFit table.now cores states.now }
    ensures own { OnOk result (place.new.windows.items
        ≡ windows_at table.now (level_states states.now) place.new.at) }
    ensures left { OnOk result
        (offers_left table.now (level_states states.now) place.new.at (drop place.new.place place.new.windows.items)
        ≡ offers_left table.now (level_states states.now) 0 (windows_at table.now (level_states states.now) 0)) }
    ensures settled { OnOk result (length place.new.windows.items ≤ place.new.place
        → length (level_states states.now) ≤ place.new.at) }
{
    place.at = 0;
    place.place = 0;
    list_windows(
        table,
        cores,
        states,
        0,
        &mut place.found,
        &mut place.windows,
    )?;
    settle(table, cores, states, place)
}
