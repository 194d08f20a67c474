//! What names an offer.

ghost use Rattle.std.specs.Prelude.{◌≡◌, ◌&&◌, ◌==◌};

use job_sets::JobNo;
use start_windows::StartWindow;

/// What names an offer: the number of a state, an eligible job of it, and its window.
#[derive(Clone, Copy, PartialEq, Eq, Debug)]
pub(crate) struct Turn {
    pub from: usize,
    pub job: JobNo,
    pub window: StartWindow,
}

impl Turn {
    /// Whether the offer is of this state and this job.
    pub(crate) fn is_choice(&self, from: u64, job: u64) -> bool
        ensures { result ≡ ((from == self.now.from) && (job == self.now.job)) }
    {
        from == self.from as u64 && job == u64::from(self.job.0)
    }

    /// Whether the offer has this window.
    pub(crate) fn has_window(&self, est: u64, lst: u64) -> bool
        ensures { result ≡ ((est == self.now.window.est) && (lst == self.now.window.lst)) }
    {
        est == self.window.est && lst == self.window.lst
    }
}
