//! A level is made from the states of the one below it.

ghost use Rattle.std.specs.Prelude.{◌≡◌, ◌+◌, ◌-◌, ◌^◌, ◌<◌, ◌∷◌, ◌++◌, [], IfErr, IfOk, None, OnOk, Some, if◌then◌else◌, length, map, ℕ};
ghost use Rattle.sag_step.specs.declared.TheConstants.{MOST_STEP_TIME};
ghost use Rattle.sag_step.specs.Group.{offers};
ghost use Rattle.sag_step.specs.Next.{next};
ghost use Rattle.sag_step.specs.Shape.{IsState, IsUpTo};
ghost use Rattle.sag_step.specs.State.{first_core, state_window};
ghost use Rattle.start_windows.specs.Eligible.{eligible_windows};
ghost use Rattle.sag_step.specs.State.{states_of};
ghost use Rattle.sag_graph.specs.Budget as budgets;
ghost use Rattle.sag_graph.specs.Levels.{next_level};
ghost use Rattle.sag_step.specs.Offers.{offer_by};
ghost use Rattle.graph_builder.specs.Filling.{FitsBudget, IsDraft, IsOver, IsOverWith, before_of, completed, first_over, level_of, no_level, with_offer};
ghost use Rattle.graph_builder.specs.Fit.{AreReady, IsReady, IsScratch, most_at};

use crate::LevelFault;
use crate::draft::Draft;
use job_model::JobTable;
use job_sets::JobNo;
use sag_graph::Edge;
use sag_step::{State, StateNo, Steps};
use start_windows::{Prospect, StartWindow, eligible, front_from, fronts_are_handed_down};
use std::alloc::{AllocError, Global};
use std::marker::Brand;
use std::sync::ledger::{Blank, Ledger};

/// The budget, the level whose offers are placed, and what the levels up to it take.
#[derive(Clone, Copy)]
pub(crate) struct Purse {
    pub(crate) budget: u32,
    pub(crate) level: u16,
    pub(crate) states: u64,
    pub(crate) edges: u64,
}

/// Room to work in.
#[derive(Drop)]
pub(crate) struct Room {
    // the next state of an offer
    pub(crate) scratch: State,
    // what is looked up of candidates, and the jobs that may be the next with their windows
    pub(crate) found: Vec<Prospect>,
    pub(crate) windows: Vec<(JobNo, StartWindow)>,
}

// Makes `into` the state after the job has started in its window.
fn make_next<L: Ledger>(
    blank: Blank,
    table: &JobTable,
    state: &State,
    job: JobNo,
    window: StartWindow,
    into: &mut State,
)
    requires name { blank.name ≡ L.name }
    requires parts { blank.parts ≡ L.parts }
    requires some { 0 < L.parts }
    requires state { IsState table.now (length state.now.state.low) state.now.state }
    requires into { IsState table.now (length state.now.state.low) into.old.state }
    requires in_limit { IsUpTo MOST_STEP_TIME state.now.state }
    requires window { state_window table.now state.now.state job ≡ Some window }
    requires room { length state.now.state.ends < into.old.room }
    ensures next { into.new.state ≡ next table.now state.now.state job window }
    ensures room { into.new.room ≡ into.old.room }
{
    let mut steps = Steps::<L>::new(blank);
    state.step_into(table, job, window, into, &mut steps);
}

// Makes `into` the next state of an offer.
fn step(
    table: &JobTable,
    cores: u16,
    level: u16,
    state: &State,
    job: JobNo,
    window: StartWindow,
    front: u16,
    into: &mut State,
)
    requires level { level < length table.now.jobs }
    requires ready { IsReady table.now cores (most_at level) state.now.state front }
    requires window { state_window table.now state.now.state job ≡ Some window }
    requires into { IsScratch table.now cores into.old }
    ensures next { into.new.state ≡ next table.now state.now.state job window }
    ensures ready { IsReady table.now cores (most_at (level + 1)) into.new.state front }
    ensures into { IsScratch table.now cores into.new }
{
    let _count = table.len();
    fronts_are_handed_down();
    make_next::<Brand>(Blank::new(1), table, state, job, window, into);
}

// Appends the front of a new state.
fn note_front(fronts: &mut Vec<u16>, is_new: bool, front: u16) -> Result<(), AllocError>
    ensures { OnOk result (fronts.new.items ≡ (if is_new then fronts.old.items ++ front ∷ [] else fronts.old.items)) }
{
    if is_new {
        fronts.push(front)?;
    }
    Ok(())
}

// Places an offer, and appends its edge.
fn take_offer(
    table: &JobTable,
    cores: u16,
    level: u16,
    from: StateNo,
    state: &State,
    job: JobNo,
    window: StartWindow,
    front: u16,
    scratch: &mut State,
    draft: &mut Draft,
) -> Result<(), AllocError>
    requires level { level < length table.now.jobs }
    requires ready { IsReady table.now cores (most_at level) state.now.state front }
    requires window { state_window table.now state.now.state job ≡ Some window }
    requires scratch { IsScratch table.now cores scratch.old }
    requires draft { IsDraft table.now cores (most_at (level + 1)) draft.old }
    requires few { length draft.old.index < 2 ^ 32 - 1 }
    ensures taken { OnOk result (level_of draft.new
        ≡ with_offer (level_of draft.old) (offer_by table.now from state.now.state (job, window))) }
    ensures draft { OnOk result (IsDraft table.now cores (most_at (level + 1)) draft.new) }
    ensures scratch { IsScratch table.now cores scratch.new }
{
    let _count = table.len();
    step(table, cores, level, state, job, window, front, scratch);
    let (to, is_new) = draft.index.place(scratch)?;
    let edge = Edge {
        from,
        job,
        window,
        to,
    };
    if draft.edges.push(edge).is_err() {
        return Err(AllocError);
    }
    note_front(&mut draft.fronts, is_new, front)
}

// Whether there is more than the budget allows.
fn is_over(budget: u32, states: u64, edges: u64) -> bool
    ensures { (level : ℕ) → result ≡ budgets.exceeds budget (record { level = level; states = states; edges = edges }) }
{
    let budget = u64::from(budget);
    budget < states || 16 * budget < edges
}

// Places an offer, unless there is more than the budget allows with it.
fn take_within(
    table: &JobTable,
    cores: u16,
    purse: Purse,
    from: StateNo,
    state: &State,
    job: JobNo,
    window: StartWindow,
    front: u16,
    scratch: &mut State,
    draft: &mut Draft,
) -> Result<(), LevelFault>
    requires level { purse.level < length table.now.jobs }
    requires ready { IsReady table.now cores (most_at purse.level) state.now.state front }
    requires window { state_window table.now state.now.state job ≡ Some window }
    requires scratch { IsScratch table.now cores scratch.old }
    requires draft { IsDraft table.now cores (most_at (purse.level + 1)) draft.old }
    requires fits { FitsBudget purse (level_of draft.old) }
    ensures taken { OnOk result (level_of draft.new
        ≡ with_offer (level_of draft.old) (offer_by table.now from state.now.state (job, window))) }
    ensures draft { OnOk result (IsDraft table.now cores (most_at (purse.level + 1)) draft.new) }
    ensures fits { OnOk result (FitsBudget purse (level_of draft.new)) }
    ensures spent { IfErr result (IsOverWith purse (with_offer (level_of draft.old) (offer_by table.now from state.now.state (job, window)))) }
    ensures scratch { IsScratch table.now cores scratch.new }
{
    let level = purse.level;
    take_offer(
        table, cores, level, from, state, job, window, front, scratch, draft,
    )?;
    let _count = table.len();
    let states = purse.states + draft.index.len() as u64;
    let edges = purse.edges + draft.edges.len() as u64;
    if is_over(purse.budget, states, edges) {
        return Err(LevelFault::Spent {
            level: level + 1,
            states,
            edges,
        });
    }
    Ok(())
}

// Places the offers of a state, one for each of the jobs that may be the next, until there is more
// than the budget allows.
fn take_offers(
    table: &JobTable,
    cores: u16,
    purse: Purse,
    from: StateNo,
    state: &State,
    windows: &[(JobNo, StartWindow)],
    front: u16,
    scratch: &mut State,
    draft: &mut Draft,
) -> Result<(), LevelFault>
    requires level { purse.level < length table.now.jobs }
    requires ready { IsReady table.now cores (most_at purse.level) state.now.state front }
    requires windows { windows.now ≡ eligible_windows table.now state.now.state.set.members state.now.state.ends
        (first_core state.now.state) }
    requires scratch { IsScratch table.now cores scratch.old }
    requires draft { IsDraft table.now cores (most_at (purse.level + 1)) draft.old }
    requires fits { FitsBudget purse (level_of draft.old) }
    ensures taken { OnOk result (level_of draft.new ≡ completed (level_of draft.old)
        (map (offer_by table.now from state.now.state) windows.now)) }
    ensures draft { OnOk result (IsDraft table.now cores (most_at (purse.level + 1)) draft.new) }
    ensures fits { OnOk result (FitsBudget purse (level_of draft.new)) }
    ensures within { OnOk result (first_over purse.budget (before_of purse) (level_of draft.old)
        (map (offer_by table.now from state.now.state) windows.now) ≡ None) }
    ensures spent { IfErr result (IsOver (first_over purse.budget (before_of purse) (level_of draft.old)
        (map (offer_by table.now from state.now.state) windows.now))) }
    ensures scratch { IsScratch table.now cores scratch.new }
{
    for i in 0..windows.len() {
        let (job, window) = windows[i];
        take_within(
            table, cores, purse, from, state, job, window, front, scratch, draft,
        )?;
    }
    Ok(())
}

/// The level that the offers of these states make. `fronts` has for each state a place in the order of
/// release before which all jobs are dispatched there, and new states are made of those in `pool`.
pub(crate) fn fill(
    alloc: Global,
    table: &JobTable,
    cores: u16,
    purse: Purse,
    states: &[State],
    fronts: &[u16],
    pool: Vec<State>,
    room: &mut Room,
) -> Result<Draft, LevelFault>
    requires level { purse.level < length table.now.jobs }
    requires ready { AreReady table.now cores (most_at purse.level) (states_of states.now) fronts.now }
    requires few { length states.now < 2 ^ 32 }
    requires scratch { IsScratch table.now cores room.old.scratch }
    requires fits { FitsBudget purse no_level }
    ensures made { IfOk result (λ draft. level_of draft ≡ next_level table.now (states_of states.now)) }
    ensures draft { IfOk result (IsDraft table.now cores (most_at (purse.level + 1))) }
    ensures fits { IfOk result (λ draft. FitsBudget purse (level_of draft)) }
    ensures within { OnOk result (first_over purse.budget (before_of purse) no_level (offers table.now (states_of states.now)) ≡ None) }
    ensures spent { IfErr result (IsOver (first_over purse.budget (before_of purse) no_level (offers table.now (states_of states.now)))) }
    ensures scratch { IsScratch table.now cores room.new.scratch }
{
    let mut draft = Draft::over(alloc, pool)?;
    for (i, state) in states.iter().enumerate() {
        let jobs = state.set();
        let front = front_from(table, jobs, fronts[i]);
        eligible(
            table,
            jobs,
            state.ends(),
            state.first_core(),
            front,
            &mut room.found,
            &mut room.windows,
        )?;
        take_offers(
            table,
            cores,
            purse,
            StateNo(i as u32),
            state,
            &room.windows,
            front,
            &mut room.scratch,
            &mut draft,
        )?;
    }
    Ok(draft)
}
