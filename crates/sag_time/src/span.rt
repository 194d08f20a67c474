//! Spans of time.

ghost use Rattle.std.specs.Prelude.{◌≡◌, ◌<◌, ◌↔◌, ◌≤◌, IfSome, IsNone};
ghost use Rattle.sag_time.specs.Interval.{covers, holds, hull, touches};

use std::marker::Model;

/// The whole numbers from a first to a last, both included. There is at least one.
#[derive(Clone, Copy, PartialEq, Eq, Debug)]
pub struct Span {
    lo: u64,
    hi: u64,
}

impl Model for Span {
    ghost use Rattle.std.specs.Prelude.{◌≤◌};
    ghost use Rattle.sag_time.specs.Interval.{Interval};

    ghost Value = { Interval };

    ghost view = { λ s. record { lo = s.lo; hi = s.hi } };

    ghost invariant = { λ s. s.lo ≤ s.hi };

    ghost inverse = { λ v. record { lo = v.lo; hi = v.hi } };
}

impl Span {
    /// The span from `lo` to `hi`, if they are in order.
    pub fn new(lo: u64, hi: u64) -> Option<Span>
        ensures span { IfSome result (λ s. (s.lo ≡ lo) × (s.hi ≡ hi)) }
        ensures none { IsNone result ↔ hi < lo }
    {
        if hi < lo {
            return None;
        }
        Some(Span { lo, hi })
    }

    /// The first number.
    pub fn lo(self) -> u64
        ensures lo { result ≡ self.lo }
        ensures order { self.lo ≤ self.hi }
    {
        self.lo
    }

    /// The last number.
    pub fn hi(self) -> u64
        ensures hi { result ≡ self.hi }
        ensures order { self.lo ≤ self.hi }
    {
        self.hi
    }

    /// The least span that covers both.
    pub fn hull(self, other: Span) -> Span
        ensures { result ≡ hull self other }
    {
        Span {
            lo: self.lo.min(other.lo),
            hi: self.hi.max(other.hi),
        }
    }

    /// Whether they overlap, or one ends just before the other begins.
    pub fn touches(self, other: Span) -> bool
        ensures { result ≡ touches self other }
    {
        self.lo.saturating_sub(1) <= other.hi && other.lo.saturating_sub(1) <= self.hi
    }

    /// Whether all of `other` is in the span.
    pub fn covers(self, other: Span) -> bool
        ensures { result ≡ covers self other }
    {
        self.lo <= other.lo && other.hi <= self.hi
    }

    /// Whether `t` is in the span.
    pub fn holds(self, t: u64) -> bool
        ensures { result ≡ holds self t }
    {
        self.lo <= t && t <= self.hi
    }
}
