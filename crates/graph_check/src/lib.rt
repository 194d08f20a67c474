//! Which certificates are valid: the clauses that they keep, and the first line that breaks one.
//!
//! A yes means that the lines are those of a certificate that keeps clauses K1 to K11 for the table on so many cores
//! (specs/Valid). Then in every legal run of every scenario each job finishes within its interval, and by its deadline where
//! its mark is ok (specs/Bounds).
//! Not checked here: the bytes of the lines, which cert_text reads; and whether the graph is tight, so that a miss need not
//! happen in any run.
//! Kept are the states of two levels, the hull of each job's edges and the jobs so far, but no line; after a no no states.
//! A state line costs a copy of its parent's set and a test of its ends against its parent's, an edge line one step and one
//! test of covering, any other line little; each state has its eligible jobs listed once, from its front on, which begins at
//! its parent's: so no line costs a walk over the jobs that are dispatched.
//! It stands on cert_text (lines), job_model (tables), start_windows and sag_step (windows, states, steps) and run_cover (the
//! laws that states cover runs), and of certificates of the old version it has the law that they stay valid (specs/Old).
#![tactic(auto)]

mod answer;
mod checker;
mod clause;
mod due;
mod hulls;
mod laws;
mod level_state;
mod line_states;
mod offer_walk;
mod progress;
mod turn;

pub use answer::{CheckAnswer, Yes};
pub use checker::Checker;
pub use clause::Clause;
pub use due::Due;
pub use laws::{
    a_yes_is_sound, failure_is_first, job_entries_are_spans, kept_are_spans, old_is_valid,
    spans_hold, valid_is_kept, valid_is_unbroken,
};
