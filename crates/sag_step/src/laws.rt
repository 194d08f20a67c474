//! Laws of states.

ghost use Rattle.sag_step.specs.Laws.{FinishIsUpTo, StateHullIsLeast, HullIsShaped, HullIsState, HullIsUpTo, NextIsShaped, NextIsState, NextIsUpTo, RootIsShaped, ScratchHasRoom, ShapeIsTested, ShapedAreComparable, SomeStepIsLeft, WideningIsReflexive, WideningIsTransitive};

/// The test of the shape passes exactly where the shape is there.
pub fn shape_is_tested()
    ensures { ShapeIsTested }
{}

/// The root can stand in memory.
pub fn root_is_shaped()
    ensures { RootIsShaped }
{}

/// Where some job is not dispatched, some job may be the next to start.
pub fn some_step_is_left()
    ensures { SomeStepIsLeft }
{
    start_windows::some_job_is_eligible();
}

/// The state after a job that may be the next to start is a state.
pub fn next_is_state()
    ensures { NextIsState }
{}

/// A step adds the greatest cost of a job at most.
pub fn next_is_up_to()
    ensures { NextIsUpTo }
{}

/// The job of the step finishes within that limit.
pub fn finish_is_up_to()
    ensures { FinishIsUpTo }
{}

/// From a state whose numbers leave room for a step the next can stand in memory.
pub fn next_is_shaped()
    ensures { NextIsShaped }
{}

/// Room for as many ends as the table has jobs is enough for each step.
pub fn scratch_has_room()
    ensures { ScratchHasRoom }
{}

/// Two states for one table and one number of cores are comparable.
pub fn shaped_are_comparable()
    ensures { ShapedAreComparable }
{}

/// Each state widens itself.
pub fn widening_is_reflexive()
    ensures { WideningIsReflexive }
{}

/// What widens a state that widens another widens that one.
pub fn widening_is_transitive()
    ensures { WideningIsTransitive }
{}

/// The hull of two states of one set is the least state that widens both.
pub fn state_hull_is_least()
    ensures { StateHullIsLeast }
{}

/// The hull of two states of one set is a state.
pub fn hull_is_state()
    ensures { HullIsState }
{}

/// No number of the hull of two states is above a limit of both.
pub fn hull_is_up_to()
    ensures { HullIsUpTo }
{}

/// The hull of two states of one set that can stand in memory can.
pub fn hull_is_shaped()
    ensures { HullIsShaped }
{}
