//! Laws of audits.

ghost use Rattle.run_audit.specs.Laws.{OneFirstBreak, UnbrokenIsLegal};

use job_model::ranks_order_jobs;

/// Of a schedule there is one answer: `None` where it is legal, and one first break where it is not.
pub fn one_first_break()
    ensures { OneFirstBreak }
{}

/// A schedule breaks no rule exactly where it is legal. So one of which the answer is `None` has the starts of every legal
/// schedule of its scenario, by the law `starts_agree` of `run_meaning`.
pub fn unbroken_is_legal()
    ensures { UnbrokenIsLegal }
{
    ranks_order_jobs();
}
