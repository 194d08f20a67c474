//! Sorted lists of times.

ghost use Rattle.std.specs.Cmp.Lexicographic.{pointwise};
ghost use Rattle.std.specs.Prelude.{◌≡◌, ◌<◌, ◌^◌, ◌↔◌, ◌≤◌, IfOk, IfSome, IsSome, IsTrue, length, max, min, nat_le, replicate, slice_index};
ghost use Rattle.sag_time.specs.Sorted.{after_start, cap_first, is_sorted};
ghost use Rattle.lists.specs.Zipped.{zip_with};

use std::alloc::{AllocError, Global};
use std::marker::Model;

/// The moments from which the cores are free: the first core to be free comes first.
#[derive(Drop)]
pub struct Avail {
    times: Vec<u64>,
}

impl Model for Avail {
    ghost use Rattle.std.specs.Prelude.{◌<◌, ◌^◌, IsTrue, List, length, ℕ};
    ghost use Rattle.sag_time.specs.Sorted.{is_sorted};

    ghost Value = { List ℕ };

    ghost view = { λ a. a.times.items };

    ghost invariant = { λ a. IsTrue (is_sorted a.times.items) × (length a.times.items < 2 ^ 16) };
}

// Takes the first core until `end`. No other is free before `floor`.
fn start_first(times: &mut [u64], floor: u64, end: u64)
    requires some { 0 < length times.old }
    requires sorted { IsTrue (is_sorted times.old) }
    ensures { times.new ≡ after_start floor end times.old }
{
    let mut carry = end;
    for i in 1..times.len() {
        let free = times[i].max(floor);
        times[i - 1] = free.min(carry);
        carry = free.max(carry);
    }
    let last = times.len() - 1;
    times[last] = carry;
}

// Each of the first `count` numbers becomes the greater of its fellow in `low` and the smaller of
// itself and `cap`.
fn cap_times(times: &mut [u64], low: &[u64], count: u16, cap: u64)
    requires lengths { length times.old ≡ length low.now }
    requires count { count ≤ length times.old }
    ensures { times.new ≡ cap_first low.now count cap times.old }
{
    for i in 0..usize::from(count) {
        times[i] = low[i].max(times[i].min(cap));
    }
}

impl Avail {
    /// `m` cores that are free from 0.
    pub fn zeros(alloc: Global, m: u16) -> Result<Avail, AllocError>
        ensures zeros { IfOk result (λ a. a ≡ replicate m 0) }
    {
        let times = vec![in alloc; 0; m as usize]?;
        Ok(Avail { times })
    }

    /// The list, if it is sorted; else it is dropped.
    pub fn from_list(list: Vec<u64>) -> Option<Avail>
        requires { length list.items < 2 ^ 16 }
        ensures list { IfSome result (λ a. a ≡ list.items) }
        ensures sorted { IsSome result ↔ IsTrue (is_sorted list.items) }
    {
        if !list.is_sorted() {
            return None;
        }
        Some(Avail { times: list })
    }

    /// An equal list.
    pub fn copy(&self, alloc: Global) -> Result<Avail, AllocError>
        ensures same { IfOk result (λ a. a ≡ self.now) }
    {
        let times = Vec::from_slice(alloc, &self.times)?;
        Ok(Avail { times })
    }

    /// Takes over the numbers of `other`.
    pub fn copy_from(&mut self, other: &Avail)
        requires { length self.old ≡ length other.now }
        ensures { self.new ≡ other.now }
    {
        self.times.copy_from_slice(&other.times);
    }

    /// The number of cores.
    pub fn len(&self) -> u16
        ensures count { result ≡ length self.now }
        ensures sorted { IsTrue (is_sorted self.now) }
    {
        self.times.len() as u16
    }

    /// The moment from which `x + 1` cores are free.
    pub fn at(&self, x: u16) -> u64
        requires { x < length self.now }
        ensures time { result ≡ slice_index self.now x }
        ensures sorted { IsTrue (is_sorted self.now) }
    {
        self.times[x as usize]
    }

    /// The moments, in their order.
    pub fn as_slice(&self) -> &[u64]
        ensures times { result.now ≡ self.now }
        ensures sorted { IsTrue (is_sorted self.now) }
    {
        &self.times
    }

    /// A job starts on the first core that is free, and takes it until `end`.
    /// No other core is free before `floor`.
    pub fn replace_first(&mut self, floor: u64, end: u64)
        requires some { 0 < length self.old }
        requires order { floor ≤ end }
        ensures { self.new ≡ after_start floor end self.old }
    {
        start_first(&mut self.times, floor, end);
    }

    /// So many cores are free by `cap`: each of the first `count` numbers becomes the greater of its
    /// fellow in `low` and the smaller of itself and `cap`.
    pub fn cap_first(&mut self, low: &Avail, count: u16, cap: u64)
        requires lengths { length self.old ≡ length low.now }
        requires count { count ≤ length self.old }
        requires order { IsTrue (pointwise nat_le low.now self.old) }
        ensures { self.new ≡ cap_first low.now count cap self.old }
    {
        cap_times(&mut self.times, &low.times, count, cap);
    }

    /// Each place takes the smaller of its number and that of `other`.
    pub fn lower_to(&mut self, other: &Avail)
        requires { length self.old ≡ length other.now }
        ensures { self.new ≡ zip_with min self.old other.now }
    {
        for (i, time) in self.times.iter_mut().enumerate() {
            *time = (*time).min(other.times[i]);
        }
    }

    /// Each place takes the greater of its number and that of `other`.
    pub fn raise_to(&mut self, other: &Avail)
        requires { length self.old ≡ length other.now }
        ensures { self.new ≡ zip_with max self.old other.now }
    {
        for (i, time) in self.times.iter_mut().enumerate() {
            *time = (*time).max(other.times[i]);
        }
    }

    /// Whether each number is at most that of `other` at its place.
    pub fn below(&self, other: &Avail) -> bool
        requires { length self.now ≡ length other.now }
        ensures below { result ≡ pointwise nat_le self.now other.now }
        ensures sorted { IsTrue (is_sorted self.now) }
    {
        self.times.iter().zip(&other.times).all(|(a, b)| a <= b)
    }
}
