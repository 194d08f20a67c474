//! Calls of `whatif`.

use crate::calls::{call, held, sure_stream};
use sag_engine::Status;
use std::alloc::{AllocError, Global};
use std::test::Fail;

// Two jobs, of which the less urgent may block.
const JOBS: &str = "h\n1,1,0,1,1,2,5,1\n2,1,0,0,2,3,9,2\n";

// The certificate where the more urgent job costs 1.
const SHORTER: &str = "\
sagcert 2 2 1
level 0 1
root 0:0
level 1 2
state 0 0 1:1 | |
state 0 1 2:3 | |
edge 0 0 0 0 0
edge 0 1 0 0 1
level 2 1
state 0 1 3:4 | |
edge 0 1 1 1 0
edge 1 0 2 3 0
job 0 1 4 ok
job 1 2 4 ok
verdict ok
end
";

// The certificate where it costs 1 or 2.
const AS_BEFORE: &str = "\
sagcert 2 2 1
level 0 1
root 0:0
level 1 2
state 0 0 1:2 | |
state 0 1 2:3 | |
edge 0 0 0 0 0
edge 0 1 0 0 1
level 2 1
state 0 1 3:5 | |
edge 0 1 1 2 0
edge 1 0 2 3 0
job 0 1 5 ok
job 1 2 5 ok
verdict ok
end
";

// Whether `sag whatif J E` with these edits, within a budget, ends so.
fn edits(
    alloc: Global,
    changes: &str,
    budget: &str,
    end: (Status, &str, &str),
) -> Result<bool, AllocError> {
    let files = held(alloc, &[("J", JOBS), ("E", changes)], 64, &[])?;
    let (out, err) = (sure_stream(alloc)?, sure_stream(alloc)?);
    let words = ["sag", "whatif", "J", "E", "--budget", budget];
    let ended = call(alloc, &words, files, out, err)?;
    Ok(ended.is(end.0, end.1, end.2))
}

#[test]
fn prints_the_certificate_once_the_edits_are_made(rt: HostRuntime) -> Result<(), Fail> {
    for (changes, budget, status, out, err) in [
        ("h\n1,1,1,1,5\n", "4", Status::Ok, SHORTER, ""),
        ("h\n1,1,1,1,5\n1,1,1,2,5\n", "4", Status::Ok, AS_BEFORE, ""),
        (
            "h\n1,1,0,1,5\n",
            "4",
            Status::Refused,
            "",
            "refused edits row 1 column 3 is outside\n",
        ),
        (
            "h\n",
            "3",
            Status::Spent,
            "",
            "spent level 2 states 4 edges 3\n",
        ),
    ] {
        let end = (status, out, err);
        assert!(rt;
            edits(rt.alloc(), changes, budget, end)?,
            "{changes} {budget}"
        );
    }
    Ok(())
}
