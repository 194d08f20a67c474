//! Calls of `report`.

use crate::calls::{call, held, sure_stream};
use sag_engine::Status;
use std::alloc::{AllocError, Global};
use std::test::Fail;

// Two jobs of one task on one core, and their certificate.
const JOBS: &str = "h\n1,1,0,1,1,2,5,1\n1,2,0,0,2,3,9,2\n";

const CERT: &str =
    "sagcert 2 2 1\nlevel 0 1\nroot 0:0\nlevel 1 2\nstate 0 0 1:2 | |\nstate 0 1 2:3 | |\n\
    edge 0 0 0 0 0\nedge 0 1 0 0 1\nlevel 2 1\nstate 0 1 3:5 | |\nedge 0 1 1 2 0\nedge 1 0 2 3 0\n\
    job 0 1 5 ok\njob 1 2 4 ok\nverdict ok\nend\n";

const WIDE: &str =
    "sagcert 2 2 1\nlevel 0 1\nroot 0:0\nlevel 1 2\nstate 0 0 1:2 | |\nstate 0 1 2:3 | |\n\
    edge 0 0 0 0 0\nedge 0 1 0 0 1\nlevel 2 1\nstate 0 1 3:5 | |\nedge 0 1 1 2 0\nedge 1 0 2 3 0\n\
    job 0 1 5 ok\njob 1 2 6 ok\nverdict ok\nend\n";

// Whether `sag report J C` with this word ends so.
fn reports<'x>(
    alloc: Global,
    cert: &'x str,
    last: &'x str,
    end: (Status, &str, &str),
) -> Result<bool, AllocError> {
    let files = held(alloc, &[("J", JOBS), ("C", cert)], 64, &[])?;
    let (out, err) = (sure_stream(alloc)?, sure_stream(alloc)?);
    let ended = call(alloc, &["sag", "report", "J", "C", last], files, out, err)?;
    Ok(ended.is(end.0, end.1, end.2))
}

#[test]
fn reports_jobs_and_tasks(rt: HostRuntime) -> Result<(), Fail> {
    for (cert, last, status, out, err) in [
        (
            WIDE,
            "--cores=1",
            Status::Ok,
            "Task ID,Job ID,BCCT,WCCT,BCRT,WCRT\n1,1,1,5,1,5\n1,2,2,6,2,6\n",
            "",
        ),
        (WIDE, "--tasks", Status::Ok, "Task ID,WCRT\n1,6\n", ""),
        (CERT, "--tasks", Status::No, "no K9 line 14\n", ""),
        (
            "sagcert 1 2 1\nend\n",
            "--tasks",
            Status::Refused,
            "",
            "refused certificate line 1 byte 9\n",
        ),
    ] {
        let end = (status, out, err);
        assert!(rt; reports(rt.alloc(), cert, last, end)?, "{last}: {cert}");
    }
    Ok(())
}
