//! Calls of `attain`.

use crate::calls::{call, held, sure_stream};
use sag_engine::Status;
use std::alloc::{AllocError, Global};
use std::test::Fail;

// Two jobs, of which the less urgent may block.
const JOBS: &str = "h\n1,1,0,1,1,2,5,1\n2,1,0,0,2,3,9,2\n";

// Whether `sag attain J 1` of this job and end within a budget ends so.
fn attains(
    alloc: Global,
    words: (&str, &str, &str),
    end: (Status, &str, &str),
) -> Result<bool, AllocError> {
    let (job, worst, budget) = words;
    let files = held(alloc, &[("J", JOBS)], 64, &[])?;
    let (out, err) = (sure_stream(alloc)?, sure_stream(alloc)?);
    let words = ["sag", "attain", "J", "1", job, worst, "--budget", budget];
    let ended = call(alloc, &words, files, out, err)?;
    Ok(ended.is(end.0, end.1, end.2))
}

#[test]
fn prints_the_run_behind_an_end(rt: HostRuntime) -> Result<(), Fail> {
    for (job, end, budget, status, out, err) in [
        (
            "1",
            "worst",
            "100",
            Status::Ok,
            "Task ID,Job ID,Release,Cost\n1,1,1,2\n2,1,0,3\n",
            "",
        ),
        (
            "1",
            "best",
            "100",
            Status::Ok,
            "Task ID,Job ID,Release,Cost\n1,1,0,1\n2,1,0,3\n",
            "",
        ),
        (
            "9",
            "best",
            "100",
            Status::Refused,
            "",
            "refused job 1 9 is not in the table\n",
        ),
        (
            "1",
            "best",
            "2",
            Status::Spent,
            "",
            "spent level 1 states 3 edges 2\n",
        ),
    ] {
        let words = (job, end, budget);
        assert!(rt;
            attains(rt.alloc(), words, (status, out, err))?,
            "{job} {end} {budget}"
        );
    }
    Ok(())
}
