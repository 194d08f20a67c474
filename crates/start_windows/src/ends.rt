//! When jobs finish.

ghost use Rattle.std.specs.Prelude.{◌≡◌, ◌++◌, ◌<◌, [], ◌∷◌, IfNone, IfOk, IfSome, IsTrue, OnErr, Some, false, if◌then◌else◌, length, slice_get, slice_index, slice_set};
ghost use Rattle.std.specs.Map.{keys_of};
ghost use Rattle.job_sets.specs.Subset.{is_member, is_rising};
ghost use Rattle.start_windows.specs.Ends.{IsEnds, end_of, is_above, with_end};

use job_sets::JobNo;
use sag_time::Span;
use std::alloc::{AllocError, Global};
use std::marker::Model;

/// The intervals in which jobs finish, by rising number.
#[derive(Drop)]
pub struct Ends {
    items: Vec<(JobNo, Span)>,
    // no more than the vector can hold without memory
    room: u16,
}

impl Model for Ends {
    ghost use Rattle.std.specs.Prelude.{◌≤◌, vec_capacity};
    ghost use Rattle.start_windows.specs.Ends.{HeldEnds, IsEnds};

    ghost Value = { HeldEnds };

    ghost view = { λ e. record { items = e.items.items; room = e.room } };

    ghost invariant = { λ e. IsEnds (record { items = e.items.items; room = e.room })
        × (e.room ≤ vec_capacity e.items) };
}

// Whether the job is above all in the list.
fn comes_last(items: &[(JobNo, Span)], job: JobNo) -> bool
    requires { IsTrue (is_rising (keys_of items.now)) }
    ensures { result ≡ is_above job items.now }
{
    match items.last() {
        Some((last, _)) => *last < job,
        None => true,
    }
}

impl Ends {
    /// An empty list without room.
    pub fn new(alloc: Global) -> Ends
        ensures { result ≡ record { items = []; room = 0 } }
    {
        Ends {
            items: Vec::new(alloc),
            room: 0,
        }
    }

    /// An empty list with room for so many items.
    pub fn with_room(alloc: Global, room: u16) -> Result<Ends, AllocError>
        ensures { IfOk result (λ ends. ends ≡ record { items = []; room = room }) }
    {
        let items = Vec::with_capacity(alloc, usize::from(room))?;
        Ok(Ends { items, room })
    }

    /// How many items it can hold without memory.
    pub fn room(&self) -> u16
        ensures room { result ≡ self.now.room }
        ensures ends { IsEnds self.now }
    {
        self.room
    }

    /// The number of items.
    pub fn len(&self) -> u16
        ensures count { result ≡ length self.now.items }
        ensures ends { IsEnds self.now }
    {
        self.items.len() as u16
    }

    /// When the job finishes, if it is listed.
    pub fn get(&self, job: JobNo) -> Option<Span>
        ensures end { result ≡ end_of self.now.items job }
        ensures ends { IsEnds self.now }
    {
        let place = self
            .items
            .binary_search_by_key(&job.0, |(no, _)| no.0)
            .ok()?;
        Some(self.items[place].1)
    }

    /// The place of the job's item, counted from 0, if it is listed.
    pub fn place_of(&self, job: JobNo) -> Option<u16>
        ensures place { IfSome result (λ place. slice_get (keys_of self.now.items) place ≡ Some job) }
        ensures missing { IfNone result (is_member job (keys_of self.now.items) ≡ false) }
        ensures ends { IsEnds self.now }
    {
        let place = self
            .items
            .binary_search_by_key(&job.0, |(no, _)| no.0)
            .ok()?;
        Some(place as u16)
    }

    /// The item at that place, counted from 0.
    pub fn at(&self, place: u16) -> (JobNo, Span)
        requires { place < length self.now.items }
        ensures item { slice_get self.now.items place ≡ Some result }
        ensures ends { IsEnds self.now }
    {
        self.items[usize::from(place)]
    }

    /// Appends the item if its job is above all in the list, and tells whether it is. Where it is not, or there is no memory,
    /// nothing changes.
    pub fn push(&mut self, job: JobNo, span: Span) -> Result<bool, AllocError>
        requires { length self.old.items < 65535 }
        ensures above { IfOk result (λ is_last. is_last ≡ is_above job self.old.items) }
        ensures pushed { IfOk result (λ is_last. self.new
            ≡ (if is_last then with_end self.old job span else self.old)) }
        ensures failed { OnErr result (self.new ≡ self.old) }
    {
        prove!(span.lo() <= span.hi());
        if !comes_last(&self.items, job) {
            return Ok(false);
        }
        self.items.push((job, span))?;
        self.room = self.room.max(self.items.len() as u16);
        Ok(true)
    }

    /// Empties the list, and keeps its room.
    pub fn clear(&mut self)
        ensures { self.new ≡ record { items = []; room = self.old.room } }
    {
        self.items.clear();
    }

    /// Appends the item of a job above all in the list, into the room that is left.
    pub fn put(&mut self, job: JobNo, span: Span)
        requires above { IsTrue (is_above job self.old.items) }
        requires room { length self.old.items < self.old.room }
        ensures { self.new ≡ record { items = self.old.items ++ (job, span) ∷ []; room = self.old.room } }
    {
        prove!(span.lo() <= span.hi());
        let _ = self.items.push((job, span));
    }

    /// Replaces the interval at that place, counted from 0.
    pub fn set_span(&mut self, place: u16, span: Span)
        requires { place < length self.old.items }
        ensures { self.new ≡ record {
          items = slice_set self.old.items place (slice_index (keys_of self.old.items) place, span);
          room = self.old.room;
        } }
    {
        prove!(span.lo() <= span.hi());
        self.items[usize::from(place)].1 = span;
    }
}
