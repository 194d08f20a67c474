//! Laws of what is kept of runs, and of trials.

ghost use Rattle.gap_report.specs.Laws.{PlainTrialsFit, TakesKeepEnds};

/// Where scenarios are taken one after another, what is kept of each job is the least and the greatest finish over their
/// legal schedules, each with the first scenario that attains it.
pub fn takes_keep_ends()
    ensures { TakesKeepEnds }
{}

/// The trials that need no graph fit their table.
pub fn plain_trials_fit()
    ensures { PlainTrialsFit }
{}
