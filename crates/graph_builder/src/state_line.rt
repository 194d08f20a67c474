//! A state as a line of a certificate.

ghost use Rattle.std.specs.Prelude.{◌≡◌, ◌++◌, ◌∷◌, ◌<◌, [], IfOk, OnOk, filter, length};
ghost use Rattle.job_sets.specs.Subset.{is_member};
ghost use Rattle.sag_graph.specs.Lines.{ends_of, pairs_of};
ghost use Rattle.graph_builder.specs.Writing.{AreListed, IsWritable, line_by};

use cert_text::{CertLine, EndList, EndOf, Numbers, Pair, Pairs};
use job_sets::{JobNo, JobSet};
use sag_step::State;
use std::alloc::{AllocError, Global};

/// The parent and the job of the edge by whose offer a state was appended.
#[derive(Clone, Copy)]
pub(crate) struct Origin {
    pub(crate) parent: u32,
    pub(crate) job: u16,
}

/// From when on its cores are possibly and certainly free.
pub(crate) fn pairs_of(alloc: Global, state: &State) -> Result<Pairs, AllocError>
    requires { length state.now.state.low ≡ length state.now.state.high }
    ensures { IfOk result (λ pairs. pairs ≡ pairs_of state.now.state) }
{
    let low = state.low();
    let high = state.high();
    let mut pairs = Pairs::new(alloc);
    for x in 0..low.len() {
        pairs.push(Pair {
            lo: low.at(x),
            hi: high.at(x),
        })?;
    }
    Ok(pairs)
}

// When the jobs finish that it tracks.
fn ends_of(alloc: Global, state: &State) -> Result<EndList, AllocError>
    ensures { IfOk result (λ ends. ends ≡ ends_of state.now.state) }
{
    let ends = state.ends();
    let mut list = EndList::new(alloc);
    for place in 0..ends.len() {
        let (job, span) = ends.at(place);
        list.push(EndOf {
            job: u64::from(job.0),
            lo: span.lo(),
            hi: span.hi(),
        })?;
    }
    Ok(list)
}

// Appends the job, if it is among the last.
fn keep_last(list: &mut Numbers, last: &JobSet, job: JobNo) -> Result<(), AllocError>
    requires { job < last.now.size }
    ensures { OnOk result (list.new ≡ list.old ++ filter (λ j. is_member j last.now.members) (job ∷ [])) }
{
    if !last.has(job) {
        return Ok(());
    }
    list.push(u64::from(job.0))
}

// Which of these jobs are surely the last on their cores.
fn last_of(alloc: Global, state: &State) -> Result<Numbers, AllocError>
    requires { AreListed state.now.state }
    ensures { IfOk result (λ last. last ≡ state.now.state.last.members) }
{
    let ends = state.ends();
    let last = state.last();
    let mut list = Numbers::new(alloc);
    for place in 0..ends.len() {
        let (job, _) = ends.at(place);
        keep_last(&mut list, last, job)?;
    }
    Ok(list)
}

/// The line of a state of that origin.
pub(crate) fn line_of(alloc: Global, state: &State, origin: Origin) -> Result<CertLine, AllocError>
    requires { IsWritable state.now.state }
    ensures { IfOk result (λ line. line ≡ line_by origin state.now.state) }
{
    Ok(CertLine::State {
        parent: u64::from(origin.parent),
        job: u64::from(origin.job),
        pairs: pairs_of(alloc, state)?,
        ends: ends_of(alloc, state)?,
        last: last_of(alloc, state)?,
    })
}
