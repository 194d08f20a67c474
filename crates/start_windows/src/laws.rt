//! Laws of windows.

ghost use Rattle.start_windows.specs.Laws.{FrontsAreHandedDown, SomeJobIsEligible};

/// Where some job is not dispatched, some job may be the next to start.
pub fn some_job_is_eligible()
    ensures { SomeJobIsEligible }
{}

/// A front of a set is one of the set with a number more, and 0 is a front of each set.
pub fn fronts_are_handed_down()
    ensures { FrontsAreHandedDown }
{}
