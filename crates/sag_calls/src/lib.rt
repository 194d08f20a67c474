//! Tests of the whole program, called over files and streams in memory.
#![tactic(auto)]

#[cfg(test)]
mod analyse_calls;
#[cfg(test)]
mod attain_calls;
#[cfg(test)]
mod audit_calls;
#[cfg(test)]
mod calls;
#[cfg(test)]
mod check_calls;
#[cfg(test)]
mod convert_calls;
#[cfg(test)]
mod fault_calls;
#[cfg(test)]
mod gap_calls;
#[cfg(test)]
mod replay_calls;
#[cfg(test)]
mod report_calls;
#[cfg(test)]
mod selftest_calls;
#[cfg(test)]
mod sure_calls;
#[cfg(test)]
mod unroll_calls;
#[cfg(test)]
mod whatif_calls;
