//! Laws of graphs in memory.

ghost use Rattle.graph_memory.specs.Held.{EdgesAreSteps, GraphsAreHeld};
ghost use Rattle.graph_memory.specs.JobLines.{JobLinesTellSpans};

use graph_builder::levels_are_fit;
use graph_valid::each_state_has_edge;

/// Each edge of the graph of a table is a step from one level to the next.
pub fn edges_are_steps()
    ensures { EdgesAreSteps }
{}

/// What is kept of each graph in memory holds of the graph of a table, as far as it is within a budget.
pub fn graphs_are_held()
    ensures { GraphsAreHeld }
{
    edges_are_steps();
    each_state_has_edge();
    levels_are_fit();
}

/// In the certificate of the graph of a table each job's line has the ends of its span.
pub fn job_lines_tell_spans()
    ensures { JobLinesTellSpans }
{}
