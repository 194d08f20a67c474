//! Calls of `check`.

ghost use Rattle.std.specs.Prelude.{◌≤◌};

use crate::calls::{call, held, sure_stream};
use sag_engine::Status;
use std::alloc::{AllocError, Global};
use std::test::Fail;

// Two jobs on one core, and their certificate of 208 bytes.
const JOBS: &str = "h\n1,1,0,1,1,2,5,1\n2,1,0,0,2,3,9,2\n";

const CERT: &str =
    "sagcert 2 2 1\nlevel 0 1\nroot 0:0\nlevel 1 2\nstate 0 0 1:2 | |\nstate 0 1 2:3 | |\n\
    edge 0 0 0 0 0\nedge 0 1 0 0 1\nlevel 2 1\nstate 0 1 3:5 | |\nedge 0 1 1 2 0\nedge 1 0 2 3 0\n\
    job 0 1 5 ok\njob 1 2 5 ok\nverdict ok\nend\n";

const YES: &str = "yes\njob 1 1 1 5 ok\njob 2 1 2 5 ok\nverdict ok\n";

// A readable certificate of no jobs.
const NO_JOBS: &str = "sagcert 2 0 1\nlevel 0 1\nroot 0:0\nverdict ok\nend\n";

// Whether `sag check J C` ends so, where reads give at most so many bytes and these fail.
fn checks_to<'x>(
    alloc: Global,
    texts: (&'x str, &'x str),
    most: usize,
    failing: (&str, u64),
    end: (Status, &str, &str),
) -> Result<bool, AllocError>
    requires { 1 ≤ most }
{
    let (jobs, cert) = texts;
    let files = held(alloc, &[("J", jobs), ("C", cert)], most, &[failing])?;
    let (out, err) = (sure_stream(alloc)?, sure_stream(alloc)?);
    let ended = call(alloc, &["sag", "check", "J", "C"], files, out, err)?;
    Ok(ended.is(end.0, end.1, end.2))
}

#[test]
fn checks_in_any_pieces(rt: HostRuntime) -> Result<(), Fail> {
    for (jobs, cert, status, out, err) in [
        (JOBS, CERT, Status::Ok, YES, ""),
        ("h", NO_JOBS, Status::Ok, "yes\nverdict ok\n", ""),
        (JOBS, NO_JOBS, Status::No, "no K1 line 1\n", ""),
        // a text fault behind a line that breaks a clause
        (
            JOBS,
            "sagcert 2 3 1\nend\nx",
            Status::Refused,
            "",
            "refused certificate line 3 byte 1\n",
        ),
        (
            JOBS,
            "sagcert 2 2 1\nlevel 0 1",
            Status::Refused,
            "",
            "refused certificate line 2 byte 10\n",
        ),
        (
            JOBS,
            "sagcert 1 2 1\nend\n",
            Status::Refused,
            "",
            "refused certificate line 1 byte 9\n",
        ),
    ] {
        for most in [1, 7, 64] {
            let end = (status, out, err);
            assert!(rt;
                checks_to(rt.alloc(), (jobs, cert), most, ("", 0), end)?,
                "{most}: {cert}"
            );
        }
    }
    Ok(())
}

#[test]
fn stops_where_a_read_fails(rt: HostRuntime) -> Result<(), Fail> {
    // 64 bytes at a time, and the end: one read of the jobs and four of the certificate
    for (name, read, status, out, err) in [
        ("J", 0, Status::ReadFault, "", "cannot read jobs\n"),
        ("J", 2, Status::ReadFault, "", "cannot read jobs\n"),
        ("C", 0, Status::ReadFault, "", "cannot read certificate\n"),
        ("C", 1, Status::ReadFault, "", "cannot read certificate\n"),
        ("C", 4, Status::ReadFault, "", "cannot read certificate\n"),
        ("C", 5, Status::ReadFault, "", "cannot read certificate\n"),
        ("C", 6, Status::Ok, YES, ""),
    ] {
        let end = (status, out, err);
        assert!(rt;
            checks_to(rt.alloc(), (JOBS, CERT), 64, (name, read), end)?,
            "{name} {read}"
        );
    }
    Ok(())
}
