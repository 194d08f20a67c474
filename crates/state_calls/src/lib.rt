//! Tests of windows, states and covers.
#![tactic(auto)]

#[cfg(test)]
mod run_cover_calls;
#[cfg(test)]
mod sag_step_calls;
#[cfg(test)]
mod start_windows_calls;
