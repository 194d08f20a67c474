//! For each job the hull of its edges' finish intervals.

ghost use Rattle.std.specs.Prelude.{◌≡◌, ◌<◌, IfOk, None, length, replicate};
ghost use Rattle.std.specs.Option.{option_map_or};
ghost use Rattle.sag_time.specs.Interval.{hull};
ghost use Rattle.graph_check.specs.Checks as checks;
ghost use Rattle.graph_check.specs.Kept.{hulls_with};

use job_sets::JobNo;
use sag_time::Span;
use std::alloc::{AllocError, Global};
use std::marker::Model;

/// For each job the hull of its edges' finish intervals, if it has an edge.
#[derive(Drop)]
pub(crate) struct Hulls {
    items: Vec<Option<Span>>,
}

impl Model for Hulls {
    ghost use Rattle.std.specs.Prelude.{List, Option};
    ghost use Rattle.sag_time.specs.Interval.{Interval};

    ghost Value = { List (Option Interval) };

    ghost view = { λ h. h.items.items };
}

// The hull of the interval and the others, if there are any.
fn wider(others: Option<Span>, finish: Span) -> Span
    ensures { result ≡ option_map_or (hull finish) others finish }
{
    match others {
        Some(others) => finish.hull(others),
        None => finish,
    }
}

// No hull, for each of so many jobs.
fn no_hulls(alloc: Global, count: u16) -> Result<Vec<Option<Span>>, AllocError>
    ensures { IfOk result (λ hulls. hulls.items ≡ replicate count None) }
{
    let mut hulls = Vec::with_capacity(alloc, usize::from(count))?;
    while hulls.len() < usize::from(count) {
        hulls.push(None)?;
    }
    Ok(hulls)
}

// Whether the span covers the hull of that number, if there is one.
fn covers_hull(hulls: &[Option<Span>], number: u64, span: Span) -> bool
    ensures { result ≡ checks.covers_hull hulls.now number span }
{
    match hulls.get(number as usize) {
        Some(Some(hull)) => span.covers(*hull),
        _ => true,
    }
}

impl Hulls {
    /// No hull, for each of so many jobs.
    pub(crate) fn none(alloc: Global, count: u16) -> Result<Hulls, AllocError>
        ensures { IfOk result (λ hulls. hulls ≡ replicate count None) }
    {
        let items = no_hulls(alloc, count)?;
        Ok(Hulls { items })
    }

    /// Whether the span covers the hull of the job of that number, if there is one.
    pub(crate) fn covers(&self, number: u64, span: Span) -> bool
        ensures { result ≡ checks.covers_hull self.now number span }
    {
        covers_hull(&self.items, number, span)
    }

    /// The hull of the job's edges with one more edge.
    pub(crate) fn widen(&mut self, job: JobNo, finish: Span)
        requires { job < length self.old }
        ensures { self.new ≡ hulls_with self.old job finish }
    {
        let place = usize::from(job.0);
        self.items[place] = Some(wider(self.items[place], finish));
    }
}
