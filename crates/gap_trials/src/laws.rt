//! Laws of trials, and of the rows that they come to.

ghost use Rattle.gap_trials.specs.Laws.{GraphSpansHold, InnerEndsInSpans, NoGapOnOneCore, OneGap, TrialsFit};

use gap_report::plain_trials_fit;
use graph_check::{job_entries_are_spans, spans_hold};
use graph_valid::graph_is_valid;
use one_core::ends_are_attained;
use run_turns::runs_exist;

/// Each trial fits its table.
pub fn trials_fit()
    ensures { TrialsFit }
{
    ends_are_attained();
    plain_trials_fit();
}

/// There are no two lists of rows for one table and number of cores.
pub fn one_gap()
    ensures { OneGap }
{
    trials_fit();
    runs_exist();
}

/// In each legal run of each scenario each job finishes within its span of the table's graph.
pub fn graph_spans_hold()
    ensures { GraphSpansHold }
{
    graph_is_valid();
    job_entries_are_spans();
    spans_hold();
}

/// The inner ends of a row lie in its span.
pub fn inner_ends_in_spans()
    ensures { InnerEndsInSpans }
{
    trials_fit();
    runs_exist();
    graph_spans_hold();
}

/// On one core without precedence the inner ends of a row are the ends of its span.
pub fn no_gap_on_one_core()
    ensures { NoGapOnOneCore }
{
    ends_are_attained();
    inner_ends_in_spans();
    runs_exist();
}
