//! Calls of `audit`.

use crate::calls::{call, held, sure_stream};
use sag_engine::Status;
use std::alloc::{AllocError, Global};
use std::test::Fail;

// Two jobs, of which the less urgent may block, and a scenario of them.
const JOBS: &str = "h\n1,1,0,1,1,2,5,1\n2,1,0,0,2,3,9,2\n";

const SCENARIO: &str = "h\n1,1,1,2\n2,1,0,3\n";

// Whether `sag audit J S R` of this recorded run ends so.
fn audits(alloc: Global, run: &str, end: (Status, &str, &str)) -> Result<bool, AllocError> {
    let files = held(alloc, &[("J", JOBS), ("S", SCENARIO), ("R", run)], 64, &[])?;
    let (out, err) = (sure_stream(alloc)?, sure_stream(alloc)?);
    let ended = call(alloc, &["sag", "audit", "J", "S", "R"], files, out, err)?;
    Ok(ended.is(end.0, end.1, end.2))
}

#[test]
fn tells_the_first_rule_that_a_run_breaks(rt: HostRuntime) -> Result<(), Fail> {
    for (run, status, out, err) in [
        ("h\n2,1,0,3,0\n1,1,3,5,0\n", Status::Ok, "legal\n", ""),
        (
            "h\n2,1,3,6,0\n1,1,1,3,0\n",
            Status::No,
            "broken L3 job 2 1 time 0\n",
            "",
        ),
        (
            "h\n2,1,0,3,1\n1,1,3,5,0\n",
            Status::No,
            "broken L0 job 2 1 time 0\n",
            "",
        ),
        (
            "h\n2,1,0,4,0\n1,1,3,5,0\n",
            Status::Refused,
            "",
            "refused run row 1 column 4 is outside\n",
        ),
        (
            "h\n2,1,0,3,0\n",
            Status::Refused,
            "",
            "refused run has no row for job 1 1\n",
        ),
    ] {
        let end = (status, out, err);
        assert!(rt; audits(rt.alloc(), run, end)?, "{run}");
    }
    Ok(())
}
