//! Edges that are kept by the state that they leave.

use job_sets::JobNo;
use sag_step::StateNo;
use start_windows::StartWindow;

/// An edge out of a known state.
#[derive(Clone, Copy, PartialEq, Eq, Debug)]
pub struct Link {
    /// The job that starts.
    pub job: JobNo,
    /// When it may start.
    pub window: StartWindow,
    /// The number of the state that it leads to.
    pub to: StateNo,
}
