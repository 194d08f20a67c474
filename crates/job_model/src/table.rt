//! Job tables.

ghost use Rattle.std.specs.Bool.{OnFalse, OnTrue};
ghost use Rattle.std.specs.Prelude.{◌≡◌, ◌≢◌, ◌<◌, ◌≤◌, ◌↔◌, Contains, IfErr, IfNone, IfOk, IfSome, IsTrue, List, OnOk, [], length, map};
ghost use Rattle.job_model.specs.Table.{IsJob, IsTable, has_urgency_over, id_of, job_at, predecessors, successors, table_of};
ghost use Rattle.job_model.specs.EdgeFaults.{FirstEdgeFault, KeepEdgeRules, with_edges};
ghost use Rattle.job_model.specs.Neighbours.{JoinJobs};
ghost use Rattle.job_model.specs.Ranks.{rank_of};
ghost use Rattle.job_model.specs.Releases.{IsReleaseOrder, release_order};
ghost use Rattle.job_model.specs.TableFaults.{FirstTableFault, ReachedJobRow};
ghost use Rattle.job_model.specs.Times.{MayCost, with_times};

use crate::edge_rows::edges_of_rows;
use crate::edges::Edges;
use crate::limits::first_above;
use crate::ranks::ranks;
use crate::release_order::release_order;
use crate::{EdgeFault, Job, JobNo, MOST_ARRIVAL, MOST_COST, MOST_JOBS, TableFault};
use indexmap::IndexSet;
use std::alloc::Global;
use std::marker::Model;

/// Jobs by their numbers, with distinct IDs and costs and releases within the limits.
#[derive(Drop)]
pub struct JobTable {
    jobs: Vec<Job>,
    // (task, job) of each job, so that the place in the set is the number of the job
    ids: IndexSet<(u64, u64)>,
    edges: Edges,
    by_release: Vec<(u64, JobNo)>,
    // the rank of each job by urgency
    ranks: Vec<u16>,
}

impl Model for JobTable {
    ghost use Rattle.std.specs.Prelude.{◌≡◌, map};
    ghost use Rattle.job_model.specs.Ranks.{AreRanks};
    ghost use Rattle.job_model.specs.Releases.{release_order};
    ghost use Rattle.job_model.specs.Table.{IsTable, Table, id_of};

    ghost Value = { Table };

    ghost view = { λ t. record { jobs = t.jobs.items; edges = t.edges } };

    ghost invariant = { λ t. IsTable (record { jobs = t.jobs.items; edges = t.edges })
        × (t.ids.keys ≡ map id_of t.jobs.items)
        × (t.by_release.items ≡ release_order (record { jobs = t.jobs.items; edges = t.edges }))
        × AreRanks (record { jobs = t.jobs.items; edges = t.edges }) t.ranks.items };
}

// Whether the row by itself keeps the rules.
fn is_job(job: &Job) -> bool
    ensures { IsTrue result ↔ IsJob job.now }
{
    job.rmin <= job.rmax
        && job.rmax <= MOST_ARRIVAL
        && 1 <= job.cmin
        && job.cmin <= job.cmax
        && job.cmax <= MOST_COST
}

// The first rule that the row by itself breaks, if it does not keep them.
fn check_row(row: u32, job: &Job) -> Result<(), TableFault>
    ensures job { OnOk result (IsJob job.now) }
    ensures fault { IfErr result (λ e. (rows : List Job) (r : ReachedJobRow rows row)
        → r.here ≡ job.now → FirstTableFault rows e) }
{
    if is_job(job) {
        return Ok(());
    }
    let limited = [
        (3, job.rmin, MOST_ARRIVAL),
        (4, job.rmax, MOST_ARRIVAL),
        (5, job.cmin, MOST_COST),
        (6, job.cmax, MOST_COST),
    ];
    if let Some(column) = first_above(&limited) {
        return Err(TableFault::OverLimit(row, column));
    }
    let spans = [(3, job.rmin, job.rmax), (5, job.cmin, job.cmax)];
    if let Some(column) = first_above(&spans) {
        return Err(TableFault::SpanReversed(row, column));
    }
    if job.cmin == 0 {
        return Err(TableFault::ZeroCost(row));
    }
    Ok(())
}

// The (task, job) of each row, in their order, where the rows keep all rules.
fn index_rows(alloc: Global, rows: &[Job]) -> Result<IndexSet<(u64, u64)>, TableFault>
    requires { length rows.now ≤ MOST_JOBS }
    ensures ids { IfOk result (λ ids. ids.keys ≡ map id_of rows.now) }
    ensures table { OnOk result (IsTable (table_of rows.now)) }
    ensures fault { IfErr result (FirstTableFault rows.now) }
{
    let Ok(mut ids) = IndexSet::with_capacity(alloc, rows.len()) else {
        return Err(TableFault::Memory);
    };
    for (i, job) in rows.iter().enumerate() {
        let row = i as u32 + 1;
        check_row(row, job)?;
        let Ok((place, is_new)) = ids.insert_full((job.task, job.job)) else {
            return Err(TableFault::Memory);
        };
        if !is_new {
            return Err(TableFault::Twice(row, place as u32 + 1));
        }
    }
    Ok(ids)
}

// Whether a job may have these costs.
fn may_cost(cmin: u64, cmax: u64) -> bool
    ensures { IsTrue result ↔ MayCost cmin cmax }
{
    1 <= cmin && cmin <= cmax && cmax <= MOST_COST
}

impl JobTable {
    /// The table of these rows, without precedence edges. Rows and columns are counted from 1. A refusal drops the rows.
    pub fn from_rows(alloc: Global, rows: Vec<Job>) -> Result<JobTable, TableFault>
        ensures rows { IfOk result (λ t. t ≡ table_of rows.items) }
        ensures table { OnOk result (IsTable (table_of rows.items)) }
        ensures fault { IfErr result (FirstTableFault rows.items) }
        ensures refused { IfErr result (λ fault. fault ≢ TableFault.Memory
            → ¬ IsTable (table_of rows.items)) }
    {
        if rows.len() > usize::from(MOST_JOBS) {
            return Err(TableFault::TooMany);
        }
        let ids = index_rows(alloc, &rows)?;
        let Ok(by_release) = release_order(alloc, &rows) else {
            return Err(TableFault::Memory);
        };
        let Ok(ranks) = ranks(alloc, &rows) else {
            return Err(TableFault::Memory);
        };
        Ok(JobTable {
            jobs: rows,
            ids,
            edges: Edges::none(alloc),
            by_release,
            ranks,
        })
    }

    /// The table with the precedence edges of these rows: (predecessor, successor). A repeated row gives one edge.
    /// Rows are counted from 1. A refusal hands the table back.
    pub fn with_edges(
        mut self,
        alloc: Global,
        rows: &[(JobNo, JobNo)],
    ) -> Result<JobTable, (JobTable, EdgeFault)>
        requires no_edges { self.edges ≡ [] }
        requires in_range { JoinJobs (length self.jobs) rows.now }
        ensures edges { IfOk result (λ t. t ≡ with_edges self rows.now) }
        ensures kept { OnOk result (KeepEdgeRules rows.now) }
        ensures table { IfOk result IsTable }
        ensures unchanged { IfErr result (λ refusal. refusal.0 ≡ self) }
        ensures fault { IfErr result (λ refusal. FirstEdgeFault rows.now refusal.1) }
        ensures refused { IfErr result (λ refusal. refusal.1 ≢ EdgeFault.Memory
            → ¬ KeepEdgeRules rows.now) }
    {
        match edges_of_rows(alloc, self.len(), rows) {
            Ok(edges) => {
                self.edges = edges;
                Ok(self)
            }
            Err(fault) => Err((self, fault)),
        }
    }

    /// Gives the job other costs and another deadline. No, and nothing changes, where no job may have these costs.
    pub fn retime(&mut self, no: JobNo, cmin: u64, cmax: u64, deadline: u64) -> bool
        requires { no < length self.old.jobs }
        ensures kept { IsTrue result ↔ MayCost cmin cmax }
        ensures changed { OnTrue result (self.new ≡ with_times self.old no cmin cmax deadline) }
        ensures unchanged { OnFalse result (self.new ≡ self.old) }
    {
        if !may_cost(cmin, cmax) {
            return false;
        }
        let job = &mut self.jobs[no.0 as usize];
        *job = Job {
            cmin,
            cmax,
            deadline,
            ..*job
        };
        true
    }

    /// The number of jobs.
    pub fn len(&self) -> u16
        ensures count { result ≡ length self.now.jobs }
        ensures table { IsTable self.now }
    {
        self.jobs.len() as u16
    }

    /// The job of that number.
    pub fn job(&self, no: JobNo) -> &Job
        requires { no < length self.now.jobs }
        ensures job { result.now ≡ job_at self.now no }
        ensures table { IsTable self.now }
    {
        &self.jobs[no.0 as usize]
    }

    /// The earliest release and the number of each job, by rising release, and at one release by rising number.
    pub fn by_release(&self) -> &[(u64, JobNo)]
        ensures order { result.now ≡ release_order self.now }
        ensures rising { IsReleaseOrder self.now result.now }
        ensures table { IsTable self.now }
    {
        &self.by_release
    }

    /// The precedence edges (predecessor, successor), in rising order.
    pub fn edges(&self) -> &[(JobNo, JobNo)]
        ensures edges { result.now ≡ self.now.edges }
        ensures table { IsTable self.now }
    {
        self.edges.list()
    }

    /// The jobs that must finish before that one starts, by rising number.
    pub fn preds(&self, no: JobNo) -> &[JobNo]
        ensures preds { result.now ≡ predecessors self.now no }
        ensures table { IsTable self.now }
    {
        self.edges.preds(no)
    }

    /// The jobs that wait for that one, by rising number.
    pub fn succs(&self, no: JobNo) -> &[JobNo]
        ensures succs { result.now ≡ successors self.now no }
        ensures table { IsTable self.now }
    {
        self.edges.succs(no)
    }

    /// The number of the job of these IDs.
    pub fn find(&self, task: u64, job: u64) -> Option<JobNo>
        ensures found { IfSome result (λ no. (no < length self.now.jobs)
            × (id_of (job_at self.now no) ≡ (task, job))) }
        ensures none { IfNone result (¬ Contains (map id_of self.now.jobs) (task, job)) }
        ensures table { IsTable self.now }
    {
        let place = self.ids.get_index_of(&(task, job))?;
        Some(JobNo(place as u16))
    }

    /// Whether job `a` is more urgent than job `b`: the smaller of their (priority, task, job).
    pub fn urgent(&self, a: JobNo, b: JobNo) -> bool
        requires first { a < length self.now.jobs }
        requires second { b < length self.now.jobs }
        ensures { result ≡ has_urgency_over self.now a b }
    {
        self.rank(a) < self.rank(b)
    }

    /// How many jobs are more urgent than that one. Of two jobs the one of the smaller rank is the more urgent.
    pub fn rank(&self, no: JobNo) -> u16
        requires { no < length self.now.jobs }
        ensures rank { result ≡ rank_of self.now no }
        ensures table { IsTable self.now }
    {
        self.ranks[no.0 as usize]
    }
}
