//! Laws of edits of one job's costs and deadline.

ghost use Rattle.graph_rework.specs.Laws.{EdgesStay, EdgesTellTotals, LevelIsRemade, LinksAreEdges, NextStays, OrderGivesStates, ReworkIsCounted, StartStays, StatesStay, StepsAreCounted, TimesAreEdit, WindowsStay};

/// The costs and the deadline of a job given anew are an edit of it.
pub fn times_are_edit()
    ensures { TimesAreEdit }
{}

/// An edit changes no window.
pub fn windows_stay()
    ensures { WindowsStay }
{}

/// An edit changes no next state by another job.
pub fn next_stays()
    ensures { NextStays }
{}

/// The states without the edited job are the same, in the same order of each level.
pub fn states_stay()
    ensures { StatesStay }
{}

/// The edges by other jobs out of these states are the same, by ranks.
pub fn edges_stay()
    ensures { EdgesStay }
{}

/// What stands at the places of the order of a level is the level.
pub fn order_gives_states()
    ensures { OrderGivesStates }
{}

/// The edges into a level, by the states that they leave.
pub fn links_are_edges()
    ensures { LinksAreEdges }
{}

/// A level that is made anew is the next level of the edited table.
pub fn level_is_remade()
    ensures { LevelIsRemade }
{}

/// The edges that are made anew, counted by the states that they leave.
pub fn rework_is_counted()
    ensures { ReworkIsCounted }
{}

/// Each edge that is made anew costs one step, and no other edge costs one.
pub fn steps_are_counted()
    ensures { StepsAreCounted }
{}

/// Levels into which no edge of the edited job leads stay whole.
pub fn start_stays()
    ensures { StartStays }
{}

/// The edges of a level tell the totals of states and edges after each offer.
pub fn edges_tell_totals()
    ensures { EdgesTellTotals }
{}
