//! Calls of `analyse`.

use crate::calls::{call, held, stream, sure_stream};
use sag_engine::Status;
use std::alloc::{AllocError, Global};
use std::test::Fail;

// Two jobs, of which the less urgent may block.
const JOBS: &str = "h\n1,1,0,1,1,2,5,1\n2,1,0,0,2,3,9,2\n";

const HEAD: &str = "sagcert 2 2 1\n";

const TO_LEVEL_0: &str = "sagcert 2 2 1\nlevel 0 1\nroot 0:0\n";

const TO_LEVEL_1: &str = "\
sagcert 2 2 1
level 0 1
root 0:0
level 1 2
state 0 0 1:2 | |
state 0 1 2:3 | |
edge 0 0 0 0 0
edge 0 1 0 0 1
";

const TO_LEVEL_2: &str = "\
sagcert 2 2 1
level 0 1
root 0:0
level 1 2
state 0 0 1:2 | |
state 0 1 2:3 | |
edge 0 0 0 0 0
edge 0 1 0 0 1
level 2 1
state 0 1 3:5 | |
edge 0 1 1 2 0
edge 1 0 2 3 0
";

const CERTIFICATE: &str = "\
sagcert 2 2 1
level 0 1
root 0:0
level 1 2
state 0 0 1:2 | |
state 0 1 2:3 | |
edge 0 0 0 0 0
edge 0 1 0 0 1
level 2 1
state 0 1 3:5 | |
edge 0 1 1 2 0
edge 1 0 2 3 0
job 0 1 5 ok
job 1 2 5 ok
verdict ok
end
";

// Whether `sag analyse J --budget N` ends so, where this call of the output fails.
fn analyses_to(
    alloc: Global,
    budget: &str,
    failing: u64,
    end: (Status, &str, &str),
) -> Result<bool, AllocError> {
    let files = held(alloc, &[("J", JOBS)], 16, &[])?;
    let out = stream(alloc, 65_536, failing, failing)?;
    let words = ["sag", "analyse", "J", "--budget", budget];
    let ended = call(alloc, &words, files, out, sure_stream(alloc)?)?;
    Ok(ended.is(end.0, end.1, end.2))
}

#[test]
fn prints_what_the_budget_allows(rt: HostRuntime) -> Result<(), Fail> {
    let at_level_2 = "spent level 2 states 4 edges 3\n";
    let at_level_1 = "spent level 1 states 2 edges 1\n";
    for (budget, end) in [
        ("4", (Status::Ok, CERTIFICATE, "")),
        ("3", (Status::Spent, TO_LEVEL_1, at_level_2)),
        ("1", (Status::Spent, TO_LEVEL_0, at_level_1)),
    ] {
        assert!(rt; analyses_to(rt.alloc(), budget, 9, end)?, "at {budget}");
    }
    Ok(())
}

#[test]
fn prints_each_level_by_itself(rt: HostRuntime) -> Result<(), Fail> {
    // the head, three levels and the tail are a write each, and then the output is finished
    for (failing, taken) in [
        (1, ""),
        (2, HEAD),
        (3, TO_LEVEL_0),
        (4, TO_LEVEL_1),
        (5, TO_LEVEL_2),
        (6, CERTIFICATE),
    ] {
        let end = (Status::WriteFault, taken, "cannot write\n");
        assert!(rt; analyses_to(rt.alloc(), "4", failing, end)?, "at {failing}");
    }
    Ok(())
}
