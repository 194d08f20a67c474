//! Calls of `gap`.

use crate::calls::{call, held, sure_stream};
use sag_engine::Status;
use std::alloc::{AllocError, Global};
use std::test::Fail;

// Two jobs, of which the less urgent may block.
const JOBS: &str = "h\n1,1,0,1,1,2,5,1\n2,1,0,0,2,3,9,2\n";

// Their intervals beside the finishes of trials on one core.
const ROWS: &str = "\
Task ID,Job ID,BCCT,Inner BCCT,Best trial,Inner WCCT,Worst trial,WCCT
1,1,1,1,0,5,3,5
2,1,2,2,2,5,1,5
";

// Whether `sag gap J` with these words behind it ends so.
fn gaps(alloc: Global, more: [&str; 2], end: (Status, &str, &str)) -> Result<bool, AllocError> {
    let files = held(alloc, &[("J", JOBS)], 64, &[])?;
    let (out, err) = (sure_stream(alloc)?, sure_stream(alloc)?);
    let words = ["sag", "gap", "J", more[0], more[1]];
    let ended = call(alloc, &words, files, out, err)?;
    Ok(ended.is(end.0, end.1, end.2))
}

#[test]
fn compares_the_graph_with_runs(rt: HostRuntime) -> Result<(), Fail> {
    for (more, status, out, err) in [
        (["--cores", "1"], Status::Ok, ROWS, ""),
        (
            ["--trial", "5"],
            Status::Ok,
            "Task ID,Job ID,Release,Cost\n1,1,1,2\n2,1,0,3\n",
            "",
        ),
        (
            ["--trial", "8"],
            Status::Refused,
            "",
            "refused trial 8 is above 7\n",
        ),
        (
            ["--budget", "3"],
            Status::Spent,
            "",
            "spent level 2 states 4 edges 3\n",
        ),
    ] {
        let end = (status, out, err);
        assert!(rt; gaps(rt.alloc(), more, end)?, "{} {}", more[0], more[1]);
    }
    Ok(())
}
