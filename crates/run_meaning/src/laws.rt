//! Laws of legal schedules.

ghost use Rattle.run_meaning.specs.Laws.{OneRun, PredecessorsComeEarlier, RunsEnd, StartsAgree};

/// Two legal schedules of one scenario have the same starts.
pub fn starts_agree()
    ensures { StartsAgree }
{}

/// A scenario has at most one legal schedule in which each job takes the lowest idle core.
pub fn one_run()
    ensures { OneRun }
{}

/// By (start, urgency) each predecessor comes earlier.
pub fn predecessors_come_earlier()
    ensures { PredecessorsComeEarlier }
{}

/// In a legal schedule each job has finished before 2^61.
pub fn runs_end()
    ensures { RunsEnd }
{}
