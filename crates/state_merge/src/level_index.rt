//! The states of a level, found by their sets.

ghost use Rattle.std.specs.Prelude.{◌≡◌, ◌∷◌, ◌++◌, ◌-◌, ◌^◌, ◌<◌, ◌↔◌, List, [], All, IfOk, IfSome, IfNone, IsTrue, OnErr, OnOk, Some, None, find, length, position, slice_get, slice_index_or};
ghost use Rattle.sag_step.specs.Group.{place_of, placed};
ghost use Rattle.sag_step.specs.Widen.{states_touch};
ghost use Rattle.state_merge.specs.Index.{AreComparableTo, IsIndex, touching};
ghost use Rattle.state_merge.specs.SameSet.{is_set, numbers_of, sets_of};
ghost use Rattle.sag_step.specs.State.{states_of};

use crate::number_lists::NumberLists;
use indexmap::IndexSet;
use job_model::JobTable;
use job_sets::JobSet;
use sag_step::{State, StateNo};
use std::alloc::{AllocError, Global};
use std::marker::Model;

/// The states of a level. Those of one set are found without a look at the others.
#[derive(Drop)]
pub struct LevelIndex {
    alloc: Global,
    states: Vec<State>,
    // states that are of no use but for their memory
    pool: Vec<State>,
    // the sets of the states, and for each the numbers of its states
    sets: IndexSet<JobSet>,
    numbers: NumberLists,
}

impl Model for LevelIndex {
    ghost use Rattle.std.specs.Prelude.{List};
    ghost use Rattle.sag_step.specs.State.{SystemState};
    ghost use Rattle.state_merge.specs.Index.{IsIndex};
    ghost use Rattle.state_merge.specs.SameSet.{sets_of};
    ghost use Rattle.sag_step.specs.State.{states_of};

    ghost Value = { List SystemState };

    ghost view = { λ x. states_of x.states.items };

    ghost invariant = { λ x. IsIndex (sets_of (states_of x.states.items)) x.sets.keys x.numbers };
}

// Notes the set of the state of that number, which comes behind these.
fn note(
    alloc: Global,
    states: &[State],
    sets: &mut IndexSet<JobSet>,
    numbers: &mut NumberLists,
    set: &JobSet,
    no: StateNo,
) -> Result<(), AllocError>
    requires number { no ≡ length states.now }
    requires index { IsIndex (sets_of (states_of states.now)) sets.old.keys numbers.old }
    ensures index { OnOk result (IsIndex (sets_of (states_of states.now) ++ set.now ∷ []) sets.new.keys numbers.new) }
    ensures keys { OnErr result (sets.new.keys ≡ sets.old.keys) }
    ensures lists { OnErr result (numbers.new ≡ numbers.old) }
{
    let _count = sets.len();
    match sets.get_index_of(set) {
        Some(place) => numbers.put(place, no),
        None => {
            let key = set.copy(alloc)?;
            numbers.begin(no)?;
            if sets.insert(key).is_err() {
                numbers.take_last();
                return Err(AllocError);
            }
            Ok(())
        }
    }
}

impl LevelIndex {
    /// No states.
    pub fn new(alloc: Global) -> LevelIndex
        ensures { result ≡ [] }
    {
        LevelIndex {
            alloc,
            states: Vec::new(alloc),
            pool: Vec::new(alloc),
            sets: IndexSet::new(alloc),
            numbers: NumberLists::new(alloc),
        }
    }

    /// No states. What it appends it makes of these, as long as there are any. Want of memory drops them.
    pub fn over(alloc: Global, pool: Vec<State>) -> Result<LevelIndex, AllocError>
        ensures { IfOk result (λ x. x ≡ []) }
    {
        let count = pool.len();
        let sets = IndexSet::with_capacity(alloc, count)?;
        let numbers = NumberLists::with_room(alloc, count)?;
        Ok(LevelIndex {
            alloc,
            states: Vec::new(alloc),
            pool,
            sets,
            numbers,
        })
    }

    /// How many states there are.
    pub fn len(&self) -> usize
        ensures { result ≡ length self.now }
    {
        self.states.len()
    }

    /// The state of that number.
    pub fn state(&self, no: StateNo) -> &State
        requires { no < length self.now }
        ensures { slice_get self.now no ≡ Some result.now.state }
    {
        &self.states[no.0 as usize]
    }

    /// The states, by their numbers.
    pub fn into_states(self) -> Vec<State>
        ensures { states_of result.items ≡ self }
    {
        self.states
    }

    /// The numbers of the states of the set, rising.
    pub fn same_set(&self, set: &JobSet) -> &[StateNo]
        ensures { result.now ≡ numbers_of set.now self.now }
    {
        match self.sets.get_index_of(set) {
            Some(place) => self.numbers.at(place),
            None => &[],
        }
    }

    // The first of these states that touches the offer.
    fn first_touching(&self, numbers: &[StateNo], offer: &State) -> Option<StateNo>
        requires in_range { All (λ no. no < length self.now) numbers.now }
        requires comparable { AreComparableTo self.now offer.now.state }
        ensures { result ≡ find (touching self.now offer.now.state) numbers.now }
    {
        for no in numbers {
            let state = self.state(*no);
            if state.touches(offer) {
                return Some(*no);
            }
        }
        None
    }

    // The first state that touches the offer.
    fn taker(&self, offer: &State) -> Option<StateNo>
        requires { AreComparableTo self.now offer.now.state }
        ensures { result ≡ position (λ s. states_touch s offer.now.state) self.now }
    {
        self.first_touching(self.same_set(offer.set()), offer)
    }

    // The state of that number absorbs the offer.
    fn absorb(&mut self, no: StateNo, offer: &State)
        requires first { position (λ s. states_touch s offer.now.state) self.old ≡ Some no }
        requires comparable { AreComparableTo self.old offer.now.state }
        ensures { self.new ≡ placed self.old offer.now.state }
    {
        self.states[no.0 as usize].absorb(offer);
    }

    // A state equal to the offer.
    fn fresh(&mut self, offer: &State) -> Result<State, AllocError>
        ensures state { IfOk result (λ s. s.state ≡ offer.now.state) }
        ensures same { self.new ≡ self.old }
    {
        if let Some(mut state) = self.pool.pop() {
            if state.is_like(offer) {
                state.assign(self.alloc, offer)?;
                return Ok(state);
            }
        }
        offer.copy(self.alloc)
    }

    // Appends the offer as the state of that number.
    fn append(&mut self, no: StateNo, offer: &State) -> Result<(), AllocError>
        requires { no ≡ length self.old }
        ensures ok { OnOk result (self.new ≡ self.old ++ offer.now.state ∷ []) }
        ensures err { OnErr result (self.new ≡ self.old) }
    {
        let state = self.fresh(offer)?;
        self.states.reserve(1)?;
        note(
            self.alloc,
            &self.states,
            &mut self.sets,
            &mut self.numbers,
            offer.set(),
            no,
        )?;
        // there is room for it
        let _ = self.states.push(state);
        Ok(())
    }

    /// Places the offer: the first state that touches it absorbs it, and where there is none it is
    /// appended. Tells the number of the state that took it, and whether it was appended. Where there is no memory, nothing
    /// changes.
    pub fn place(&mut self, offer: &State) -> Result<(StateNo, bool), AllocError>
        requires comparable { AreComparableTo self.old offer.now.state }
        requires few { length self.old < 2 ^ 32 - 1 }
        ensures placed { OnOk result (self.new ≡ placed self.old offer.now.state) }
        ensures place { IfOk result (λ r. r.0 ≡ place_of self.old offer.now.state) }
        ensures appended { IfOk result (λ r. IsTrue r.1 ↔ (r.0 ≡ length self.old)) }
        ensures failed { OnErr result (self.new ≡ self.old) }
    {
        match self.taker(offer) {
            Some(no) => {
                self.absorb(no, offer);
                Ok((no, false))
            }
            None => {
                let no = StateNo(self.len() as u32);
                self.append(no, offer)?;
                Ok((no, true))
            }
        }
    }
}
