//! Worked spans and lists.

ghost use Rattle.std.specs.Prelude.{◌≡◌, ◌<◌, ◌^◌, IfSome, length};

use sag_time::{
    Avail, Span, cap_keeps_order, cap_lowers, start_keeps_below, start_keeps_order,
    touch_leaves_no_gap,
};
use std::alloc::Global;

#[test]
fn spans_are_in_order(rt: HostRuntime) {
    assert_eq!(rt; Span::new(3, 2), None);
    let Some(span) = Span::new(2, 3) else {
        panic!(rt; "2 to 3 are in order");
    };
    assert_eq!(rt; (span.lo(), span.hi()), (2, 3));
}

#[test]
fn spans_touch_where_no_number_is_between(rt: HostRuntime) {
    let last = u64::MAX;
    for (one, other, touch) in [
        ((0, 2), (3, 5), true),
        ((0, 2), (4, 5), false),
        ((0, 9), (4, 5), true),
        ((last, last), (0, 0), false),
        ((0, last), (last, last), true),
    ] {
        let (Some(one), Some(other)) = (Span::new(one.0, one.1), Span::new(other.0, other.1)) else {
            panic!(rt; "the ends are in order");
        };
        assert_eq!(rt; (one.touches(other), other.touches(one)), (touch, touch));
    }
    touch_leaves_no_gap();
}

#[test]
fn the_hull_covers_both_spans(rt: HostRuntime) {
    let (Some(early), Some(late)) = (Span::new(0, 2), Span::new(4, 5)) else {
        panic!(rt; "the ends are in order");
    };
    let hull = late.hull(early);
    assert_eq!(rt; Some(hull), Span::new(0, 5));
    assert_eq!(rt; (hull.covers(early), early.covers(hull)), (true, false));
    assert_eq!(rt;
        (hull.holds(3), early.holds(3), late.holds(5)),
        (true, false, true)
    );
}

// The list of these times, which are few.
fn avail(alloc: Global, times: &[u64]) -> Option<Avail>
    requires { length times.now < 2 ^ 16 }
    ensures { IfSome result (λ a. a ≡ times.now) }
{
    Avail::from_list(times.to_vec(alloc).ok()?)
}

#[test]
fn lists_are_sorted(rt: HostRuntime) {
    let alloc = rt.alloc();
    assert!(rt; avail(alloc, &[2, 1]).is_none());
    let Some(list) = avail(alloc, &[1, 2, 2]) else {
        panic!(rt; "the list is sorted");
    };
    assert_eq!(rt; (list.len(), list.at(0), list.at(2)), (3, 1, 2));
}

#[test]
fn a_start_takes_the_first_core(rt: HostRuntime) {
    for (times, floor, end, after) in [
        ([0, 0, 5], 3, 4, [3, 4, 5]),
        ([0, 0, 5], 3, 9, [3, 5, 9]),
        ([0, 4, 5], 1, 1, [1, 4, 5]),
    ] {
        let Some(mut list) = avail(rt.alloc(), &times) else {
            panic!(rt; "the list is sorted");
        };
        list.replace_first(floor, end);
        assert_eq!(rt; list.as_slice(), after.as_slice());
    }
    start_keeps_order();
    start_keeps_below();
}

#[test]
fn cores_are_free_by_a_cap(rt: HostRuntime) {
    let alloc = rt.alloc();
    let (Some(low), Some(mut list)) = (avail(alloc, &[2, 2]), avail(alloc, &[6, 10])) else {
        panic!(rt; "the lists are sorted");
    };
    assert!(rt; low.below(&list));
    list.cap_first(&low, 2, 4);
    assert_eq!(rt; list.as_slice(), [4, 4].as_slice());
    cap_keeps_order();
    cap_lowers();
}

#[test]
fn lists_are_compared_and_merged(rt: HostRuntime) {
    let alloc = rt.alloc();
    let (Some(one), Some(other), Ok(mut list)) = (
        avail(alloc, &[1, 5]),
        avail(alloc, &[2, 4]),
        Avail::zeros(alloc, 2),
    ) else {
        panic!(rt; "the lists are sorted");
    };
    assert!(rt; list.below(&one) && !one.below(&other) && !other.below(&one));
    list.copy_from(&one);
    assert_eq!(rt; list.as_slice(), [1, 5].as_slice());
    list.lower_to(&other);
    assert_eq!(rt; list.as_slice(), [1, 4].as_slice());
    let Ok(mut copy) = one.copy(alloc) else {
        panic!(rt; "there is memory");
    };
    copy.raise_to(&other);
    assert_eq!(rt; copy.as_slice(), [2, 5].as_slice());
    assert!(rt; list.below(&copy));
}
