//! Laws of job tables.

ghost use Rattle.job_model.specs.Laws.{RanksOrderJobs};

/// Of two jobs the one of the smaller rank is the more urgent, and no two jobs have one rank.
pub fn ranks_order_jobs()
    ensures { RanksOrderJobs }
{}
