//! The least and the greatest finish of a job over some runs.

ghost use Rattle.std.specs.Prelude.{◌≡◌, option_map};
ghost use Rattle.gap_report.specs.InnerBounds.{ends_after};

/// The least and the greatest finish of a job over the runs of scenarios that are taken one after another,
/// each with the place of the first scenario that attains it, from 0. Times are in the units of the table.
#[derive(Clone, Copy, PartialEq, Eq, Debug)]
pub struct InnerEnds {
    /// The least finish.
    pub lo: u64,
    /// The first scenario in which the job finishes then.
    pub lo_trial: u32,
    /// The greatest finish.
    pub hi: u64,
    /// The first scenario in which the job finishes then.
    pub hi_trial: u32,
}

/// The ends once the job finishes at `finish` in the scenario of that place. The first finish is both ends; a later one
/// replaces an end where it lies outside of them.
pub(crate) fn ends_after(place: u32, finish: u64, before: Option<InnerEnds>) -> InnerEnds
    ensures { result ≡ ends_after place finish before }
{
    let Some(mut ends) = before else {
        return InnerEnds {
            lo: finish,
            lo_trial: place,
            hi: finish,
            hi_trial: place,
        };
    };
    if finish < ends.lo {
        ends.lo = finish;
        ends.lo_trial = place;
    }
    if ends.hi < finish {
        ends.hi = finish;
        ends.hi_trial = place;
    }
    ends
}
