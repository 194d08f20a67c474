//! Laws: all runs are covered.

ghost use Rattle.run_cover.specs.Laws.{RootCovers, StepsCover, WiderCovers};

/// The root covers the start of every run.
pub fn root_covers()
    ensures { RootCovers }
{}

/// Where a state covers the first jobs of a run, the next job may be the next to start, its start is in its window, and
/// what widens the next state covers that job too.
pub fn steps_cover()
    ensures { StepsCover }
{}

/// What widens a state that covers the first jobs of a run covers them.
pub fn wider_states_cover()
    ensures { WiderCovers }
{}
