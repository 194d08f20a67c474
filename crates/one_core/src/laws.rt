//! Laws: both ends of each span are attained, so the spans are as narrow as can be.

ghost use Rattle.one_core.specs.Laws.{EndsAreAttained, IntervalsAreReached, MissesAreReal, SpansAreNarrowest};

use graph_valid::each_job_has_edge;
use run_turns::runs_exist;

/// On one core without precedence each moment at which the core may be free in a state of the graph is
/// reached: in each legal run of some scenario the jobs of the state come first, and the last of them
/// finishes just then.
pub fn intervals_are_reached()
    ensures { IntervalsAreReached }
{
    each_job_has_edge();
}

/// On one core without precedence each job has a span, the scenario for either end of it fits, and in
/// each legal schedule of that scenario the job finishes at exactly that end.
pub fn ends_are_attained()
    ensures { EndsAreAttained }
{
    each_job_has_edge();
}

/// An interval that holds each finish of a job, in all legal runs of all scenarios, has the job's span in it.
pub fn spans_are_narrowest()
    ensures { SpansAreNarrowest }
{
    ends_are_attained();
    runs_exist();
}

/// Where a job's span ends after its deadline, some legal run misses the deadline.
pub fn misses_are_real()
    ensures { MissesAreReal }
{
    ends_are_attained();
    runs_exist();
}
