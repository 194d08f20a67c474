//! Calls of `convert`.

ghost use Rattle.std.specs.Prelude.{◌≤◌};

use crate::calls::{call, held, sure_stream};
use sag_engine::Status;
use std::alloc::{AllocError, Global};
use std::test::Fail;

const OLD: &str =
    "sagcert 1 1 2\nlevel 0 1\nroot 0:0 0:0\nstate 0 0 0:0 2:4 | 0:2:4\nverdict ok\nend\n";

const NEW: &str =
    "sagcert 2 1 2\nlevel 0 1\nroot 0:0 0:0\nstate 0 0 0:0 2:4 | 0:2:4 |\nverdict ok\nend\n";

// Whether `sag convert C` ends so, where reads give at most so many bytes and this one fails.
fn converts_to(
    alloc: Global,
    cert: &str,
    most: usize,
    failing: (&str, u64),
    end: (Status, &str, &str),
) -> Result<bool, AllocError>
    requires { 1 ≤ most }
{
    let files = held(alloc, &[("C", cert)], most, &[failing])?;
    let (out, err) = (sure_stream(alloc)?, sure_stream(alloc)?);
    let ended = call(alloc, &["sag", "convert", "C"], files, out, err)?;
    Ok(ended.is(end.0, end.1, end.2))
}

#[test]
fn converts_in_any_pieces(rt: HostRuntime) -> Result<(), Fail> {
    for (cert, most, read, status, out, err) in [
        (OLD, 1, 99, Status::Ok, NEW, ""),
        (OLD, 64, 99, Status::Ok, NEW, ""),
        (
            OLD,
            64,
            2,
            Status::ReadFault,
            "",
            "cannot read certificate\n",
        ),
        (
            NEW,
            7,
            99,
            Status::Refused,
            "",
            "refused certificate line 1 byte 9\n",
        ),
        (
            "",
            7,
            99,
            Status::Refused,
            "",
            "refused certificate line 1 byte 1\n",
        ),
    ] {
        let end = (status, out, err);
        assert!(rt;
            converts_to(rt.alloc(), cert, most, ("C", read), end)?,
            "{most}: {cert}"
        );
    }
    Ok(())
}
