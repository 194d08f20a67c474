//! Calls of `selftest`.

use crate::calls::{call, held, sure_stream};
use sag_engine::Status;
use std::alloc::{AllocError, Global};
use std::test::Fail;

// Whether `sag selftest` with this number and these cores prints that.
fn sums_up(alloc: Global, number: &str, cores: &str, line: &str) -> Result<bool, AllocError> {
    let files = held(alloc, &[], 64, &[])?;
    let (out, err) = (sure_stream(alloc)?, sure_stream(alloc)?);
    let ended = call(alloc, &["sag", "selftest", number, cores], files, out, err)?;
    Ok(ended.is(Status::Ok, line, ""))
}

#[test]
fn sums_up_a_generated_workload(rt: HostRuntime) -> Result<(), Fail> {
    for (number, cores, line) in [
        (
            "3",
            "--cores=1",
            "selftest 3 jobs 240 cores 1 states 465 edges 591 miss 1\n",
        ),
        (
            "7",
            "--cores=2",
            "selftest 7 jobs 240 cores 2 states 549 edges 862 miss 0\n",
        ),
    ] {
        assert!(rt;
            sums_up(rt.alloc(), number, cores, line)?,
            "{number} {cores}"
        );
    }
    Ok(())
}
