//! What a command is told by, for tests.

use job_model::End;
use sag_edge::FileName;
use sag_words::Command;
use std::alloc::{AllocError, Global};
use task_unroll::Policy;

// The name of a precedence file in brackets, or `-`.
fn prec_told(alloc: Global, prec: &Option<FileName>) -> Result<String, AllocError> {
    match prec {
        Some(name) => format!(in alloc; "[{}]", name.as_str()),
        None => String::from_str(alloc, "-"),
    }
}

// The word of an end.
fn end_told(end: End) -> &'static str {
    match end {
        End::Best => "best",
        End::Worst => "worst",
    }
}

// The word of a policy.
fn policy_told(policy: Policy) -> &'static str {
    match policy {
        Policy::Rate => "rate",
        Policy::Deadline => "deadline",
        Policy::Edf => "edf",
    }
}

// A precedence file and a number of cores.
fn rest_told(alloc: Global, prec: &Option<FileName>, cores: u16) -> Result<String, AllocError> {
    let prec = prec_told(alloc, prec)?;
    format!(in alloc; "{prec} {cores}")
}

// A command that makes jobs.
fn jobs_told(alloc: Global, command: &Command) -> Result<String, AllocError> {
    match command {
        Command::Selftest { number, cores } => format!(in alloc; "selftest {number} {cores}"),
        Command::Unroll {
            tasks,
            horizon,
            policy,
        } => {
            let policy = policy_told(*policy);
            format!(in alloc; "unroll [{}] {horizon} {policy}", tasks.as_str())
        }
        _ => String::from_str(alloc, "another"),
    }
}

// A command on runs, or one that makes jobs.
fn run_told(alloc: Global, command: &Command) -> Result<String, AllocError> {
    match command {
        Command::Replay {
            jobs,
            scenario,
            prec,
            cores,
        } => {
            let rest = rest_told(alloc, prec, *cores)?;
            let (jobs, scenario) = (jobs.as_str(), scenario.as_str());
            format!(in alloc; "replay [{jobs}] [{scenario}] {rest}")
        }
        Command::Audit {
            jobs,
            scenario,
            run,
            prec,
            cores,
        } => {
            let rest = rest_told(alloc, prec, *cores)?;
            let (jobs, scenario, run) = (jobs.as_str(), scenario.as_str(), run.as_str());
            format!(in alloc; "audit [{jobs}] [{scenario}] [{run}] {rest}")
        }
        Command::Attain {
            jobs,
            task,
            job,
            end,
            budget,
        } => {
            let end = end_told(*end);
            format!(in alloc; "attain [{}] {task} {job} {end} {budget}", jobs.as_str())
        }
        _ => jobs_told(alloc, command),
    }
}

// A command on a certificate, on runs, or one that makes jobs.
fn certificate_told(alloc: Global, command: &Command) -> Result<String, AllocError> {
    match command {
        Command::Check {
            jobs,
            cert,
            prec,
            cores,
        } => {
            let rest = rest_told(alloc, prec, *cores)?;
            format!(in alloc; "check [{}] [{}] {rest}", jobs.as_str(), cert.as_str())
        }
        Command::Report {
            jobs,
            cert,
            prec,
            cores,
            tasks,
        } => {
            let rest = rest_told(alloc, prec, *cores)?;
            format!(in alloc;
                "report [{}] [{}] {rest} {tasks}",
                jobs.as_str(),
                cert.as_str()
            )
        }
        Command::Convert { cert } => format!(in alloc; "convert [{}]", cert.as_str()),
        _ => run_told(alloc, command),
    }
}

// The number of a trial, or `-`.
fn trial_told(alloc: Global, trial: Option<u32>) -> Result<String, AllocError> {
    match trial {
        Some(trial) => format!(in alloc; "{trial}"),
        None => String::from_str(alloc, "-"),
    }
}

/// What a command is told by: its name, its files in brackets, its numbers and its words; `-` stands for what is not given.
pub(crate) fn told(alloc: Global, command: &Command) -> Result<String, AllocError> {
    match command {
        Command::Analyse {
            jobs,
            prec,
            cores,
            budget,
        } => {
            let rest = rest_told(alloc, prec, *cores)?;
            format!(in alloc; "analyse [{}] {rest} {budget}", jobs.as_str())
        }
        Command::WhatIf {
            jobs,
            edits,
            prec,
            cores,
            budget,
        } => {
            let rest = rest_told(alloc, prec, *cores)?;
            let (jobs, edits) = (jobs.as_str(), edits.as_str());
            format!(in alloc; "whatif [{jobs}] [{edits}] {rest} {budget}")
        }
        Command::Gap {
            jobs,
            prec,
            cores,
            budget,
            trial,
        } => {
            let rest = rest_told(alloc, prec, *cores)?;
            let trial = trial_told(alloc, *trial)?;
            format!(in alloc; "gap [{}] {rest} {budget} {trial}", jobs.as_str())
        }
        _ => certificate_told(alloc, command),
    }
}
