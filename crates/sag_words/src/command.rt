//! What words can ask for.

use job_model::End;
use sag_edge::FileName;
use task_unroll::Policy;

/// What the words ask for.
#[derive(Drop)]
pub enum Command {
    /// `analyse JOBS [--prec FILE] [--cores N] [--budget N]`: the certificate of the graph, within a budget of states.
    Analyse {
        jobs: FileName,
        prec: Option<FileName>,
        cores: u16,
        budget: u32,
    },
    /// `check JOBS CERT [--prec FILE] [--cores N]`: whether a certificate is valid.
    Check {
        jobs: FileName,
        cert: FileName,
        prec: Option<FileName>,
        cores: u16,
    },
    /// `replay JOBS SCENARIO [--prec FILE] [--cores N]`: the schedule of a scenario.
    Replay {
        jobs: FileName,
        scenario: FileName,
        prec: Option<FileName>,
        cores: u16,
    },
    /// `attain JOBS TASK JOB best|worst [--budget N]`: a scenario in which a job finishes at an end of its interval.
    Attain {
        jobs: FileName,
        task: u64,
        job: u64,
        end: End,
        budget: u32,
    },
    /// `report JOBS CERT [--prec FILE] [--cores N] [--tasks]`: bounds on response times, by job or by task.
    Report {
        jobs: FileName,
        cert: FileName,
        prec: Option<FileName>,
        cores: u16,
        tasks: bool,
    },
    /// `selftest NUMBER [--cores N]`: the size of the graph of the workload of that number.
    Selftest {
        number: u64,
        cores: u16,
    },
    /// `convert CERT`: a certificate of the old version in the new one.
    Convert {
        cert: FileName,
    },
    /// `audit JOBS SCENARIO RUN [--prec FILE] [--cores N]`: whether a recorded run is legal.
    Audit {
        jobs: FileName,
        scenario: FileName,
        run: FileName,
        prec: Option<FileName>,
        cores: u16,
    },
    /// `unroll TASKS HORIZON POLICY`: the jobs of periodic tasks that are released before a moment.
    Unroll {
        tasks: FileName,
        horizon: u64,
        policy: Policy,
    },
    /// `whatif JOBS EDITS [--prec FILE] [--cores N] [--budget N]`: the certificate of the graph once costs and deadlines
    /// are edited, within a budget of states.
    WhatIf {
        jobs: FileName,
        edits: FileName,
        prec: Option<FileName>,
        cores: u16,
        budget: u32,
    },
    /// `gap JOBS [--prec FILE] [--cores N] [--budget N] [--trial K]`: each job's interval beside the finishes that trials
    /// attain, or the scenario of one trial.
    Gap {
        jobs: FileName,
        prec: Option<FileName>,
        cores: u16,
        budget: u32,
        trial: Option<u32>,
    },
}
