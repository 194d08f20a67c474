//! Laws of the certificates of graphs.

ghost use Rattle.graph_valid.specs.Laws.{EachJobHasEdge, EachStateHasEdge, EdgesNameStates, GraphIsReadable, GraphIsShort, GraphIsValid};

use cert_text as _;
use graph_check as _;
use sag_graph as _;

/// The lines of the graph of a table are those of a valid certificate.
pub fn graph_is_valid()
    ensures { GraphIsValid }
{
    sag_step::root_is_shaped();
    sag_step::next_is_state();
    sag_step::hull_is_state();
    sag_step::shaped_are_comparable();
    sag_step::state_hull_is_least();
    sag_step::widening_is_reflexive();
    sag_step::widening_is_transitive();
}

/// They are the lines of a readable certificate, where the graph is within a budget.
pub fn graph_is_readable()
    ensures { GraphIsReadable }
{
    sag_step::root_is_shaped();
    sag_step::next_is_state();
    sag_step::next_is_up_to();
    sag_step::finish_is_up_to();
    sag_step::hull_is_up_to();
    sag_step::hull_is_state();
    sag_step::shaped_are_comparable();
    sag_step::state_hull_is_least();
    sag_step::widening_is_reflexive();
    sag_step::widening_is_transitive();
}

/// Their spelling has at most 2^40 bytes then.
pub fn graph_is_short()
    ensures { GraphIsShort }
{
    sag_step::root_is_shaped();
    sag_step::next_is_state();
    sag_step::next_is_up_to();
    sag_step::finish_is_up_to();
    sag_step::hull_is_up_to();
    sag_step::hull_is_state();
    sag_step::shaped_are_comparable();
    sag_step::state_hull_is_least();
    sag_step::widening_is_reflexive();
    sag_step::widening_is_transitive();
}

/// Each job has an edge in the graph of its table.
pub fn each_job_has_edge()
    ensures { EachJobHasEdge }
{
    sag_step::root_is_shaped();
    sag_step::some_step_is_left();
    sag_step::next_is_state();
    sag_step::hull_is_state();
}

/// Each edge leads from a state of a level to one of the next.
pub fn edges_name_states()
    ensures { EdgesNameStates }
{}

/// Each state above level 0 has an edge into it.
pub fn each_state_has_edge()
    ensures { EachStateHasEdge }
{}
