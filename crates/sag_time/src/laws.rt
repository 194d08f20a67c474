//! Laws of spans and of sorted lists of times.

ghost use Rattle.sag_time.specs.Laws.{CapKeepsOrder, CapLowers, CoversHoldsAll, CoversIsOrder, HullIsLeast, StartKeepsOrder, StartKeepsBelow, TouchLeavesNoGap};

/// Two spans touch exactly where their hull has no number outside both.
pub fn touch_leaves_no_gap()
    ensures { TouchLeavesNoGap }
{}

/// The hull covers both spans, and each span that covers both covers it.
pub fn hull_is_least()
    ensures { HullIsLeast }
{}

/// To cover is an order of spans.
pub fn covers_is_order()
    ensures { CoversIsOrder }
{}

/// A span covers another exactly where it holds each of its numbers.
pub fn covers_holds_all()
    ensures { CoversHoldsAll }
{}

/// A start leaves a list sorted, and as long.
pub fn start_keeps_order()
    ensures { StartKeepsOrder }
{}

/// Where each number of a list is at most its fellow in another, so it is after a start,
/// if the floor and the end are in order too.
pub fn start_keeps_below()
    ensures { StartKeepsBelow }
{}

/// A cap leaves a list sorted, as long, and not below the list of lows.
pub fn cap_keeps_order()
    ensures { CapKeepsOrder }
{}

/// No number grows by a cap.
pub fn cap_lowers()
    ensures { CapLowers }
{}
