//! States beside one another: whether they may merge, and what they become.

ghost use Rattle.std.specs.Prelude.{◌≡◌, ◌+◌, ◌<◌, IsTrue, length, nat_le};
ghost use Rattle.std.specs.Cmp.Lexicographic.{pointwise};
ghost use Rattle.job_sets.specs.Subset.{is_within};
ghost use Rattle.sag_time.specs.Interval.{touches};
ghost use Rattle.sag_step.specs.Widen.{AreComparable, core_intervals, same_set, state_hull, states_touch, widens};

use super::State;
use crate::ends::{cover_ends, widen_ends};
use job_sets::JobSet;
use sag_time::Avail;

// Whether no number of `low` is above that of `high` at its place by more than one.
fn begins_near(low: &Avail, high: &Avail) -> bool
    requires { length low.now ≡ length high.now }
    ensures { result ≡ pointwise (λ from to. nat_le from (to + 1)) low.now high.now }
{
    let high = high.as_slice();
    low.as_slice()
        .iter()
        .zip(high)
        .all(|(from, to)| from.saturating_sub(1) <= *to)
}

// Whether the set has all members of the other. Many states have no last jobs, and then no word is looked at.
#[tactic(auto, using(crate::proofs::Sets::none_within))]
fn has_all(set: &JobSet, others: &JobSet) -> bool
    requires { others.now.size ≡ set.now.size }
    ensures { result ≡ is_within others.now.members set.now.members }
{
    if others.count() == 0 {
        return true;
    }
    others.within(set)
}

impl State {
    /// Whether the other has as many cores, and a set of as many jobs.
    pub fn is_like(&self, other: &State) -> bool
        ensures size { IsTrue result → self.now.state.set.size ≡ other.now.state.set.size }
        ensures low { IsTrue result → length self.now.state.low ≡ length other.now.state.low }
        ensures high { IsTrue result → length self.now.state.high ≡ length other.now.state.high }
        ensures like { self.now.state.set.size ≡ other.now.state.set.size
            → length self.now.state.low ≡ length other.now.state.low
            → length self.now.state.high ≡ length other.now.state.high → IsTrue result }
    {
        let size = self.set.size() == other.set.size();
        let low = self.low.len() == other.low.len();
        let high = self.high.len() == other.high.len();
        size && low && high
    }

    /// Whether the sets are equal, and at each place the two states leave no gap between them.
    pub fn touches(&self, other: &State) -> bool
        requires { AreComparable self.now.state other.now.state }
        ensures { result ≡ states_touch self.now.state other.now.state }
    {
        self.has_set_of(other) && self.leaves_no_gap(other)
    }

    // Whether the sets are equal.
    fn has_set_of(&self, other: &State) -> bool
        requires { self.now.state.set.size ≡ other.now.state.set.size }
        ensures { result ≡ same_set self.now.state.set other.now.state.set }
    {
        self.set.same(&other.set)
    }

    // Whether the intervals of availability touch at each place.
    fn leaves_no_gap(&self, other: &State) -> bool
        requires { AreComparable self.now.state other.now.state }
        ensures { result ≡ pointwise touches (core_intervals self.now.state)
            (core_intervals other.now.state) }
    {
        begins_near(&self.low, &other.high) && begins_near(&other.low, &self.high)
    }

    /// Whether all that is possible by the other state is possible by this one.
    pub fn covers(&self, other: &State) -> bool
        requires { AreComparable self.now.state other.now.state }
        ensures { result ≡ widens self.now.state other.now.state }
    {
        self.has_set_of(other)
            && self.low.below(&other.low)
            && other.high.below(&self.high)
            && cover_ends(&self.ends, &other.ends)
            && has_all(&other.last, &self.last)
    }

    /// It becomes the least state that covers both.
    pub fn absorb(&mut self, other: &State)
        requires comparable { AreComparable self.old.state other.now.state }
        requires same { IsTrue (same_set self.old.state.set other.now.state.set) }
        ensures hull { self.new.state ≡ state_hull self.old.state other.now.state }
        ensures room { self.new.room ≡ self.old.room }
    {
        self.low.lower_to(&other.low);
        self.high.raise_to(&other.high);
        widen_ends(&mut self.ends, &other.ends);
        self.last.keep_common(&other.last);
    }
}
