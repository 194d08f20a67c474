//! How a legal run grows, dispatch by dispatch.
#![tactic(auto)]

ghost use Rattle.run_meaning.specs.Laws.{RunsExist};

/// Each scenario that fits has a legal schedule in which each job takes the lowest idle core.
pub fn runs_exist()
    ensures { RunsExist }
{}
