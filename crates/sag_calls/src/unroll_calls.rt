//! Calls of `unroll`.

use crate::calls::{call, held, sure_stream};
use sag_engine::Status;
use std::alloc::{AllocError, Global};
use std::test::Fail;

// Two tasks, of which the second is released later and has some jitter.
const TASKS: &str = "h\n1,10,0,0,1,2,9\n2,20,5,1,2,4,20\n";

// Whether `sag unroll T 20` of these tasks by this policy ends so.
fn unrolls(
    alloc: Global,
    tasks: &str,
    policy: &str,
    end: (Status, &str, &str),
) -> Result<bool, AllocError> {
    let files = held(alloc, &[("T", tasks)], 64, &[])?;
    let (out, err) = (sure_stream(alloc)?, sure_stream(alloc)?);
    let ended = call(
        alloc,
        &["sag", "unroll", "T", "20", policy],
        files,
        out,
        err,
    )?;
    Ok(ended.is(end.0, end.1, end.2))
}

#[test]
fn prints_the_jobs_of_tasks(rt: HostRuntime) -> Result<(), Fail> {
    for (tasks, policy, status, out, err) in [
        (
            TASKS,
            "rate",
            Status::Ok,
            "Task ID,Job ID,Arrival min,Arrival max,Cost min,Cost max,Deadline,Priority\n\
            1,1,0,0,1,2,9,10\n1,2,10,10,1,2,19,10\n2,1,5,6,2,4,25,20\n",
            "",
        ),
        (
            TASKS,
            "edf",
            Status::Ok,
            "Task ID,Job ID,Arrival min,Arrival max,Cost min,Cost max,Deadline,Priority\n\
            1,1,0,0,1,2,9,9\n1,2,10,10,1,2,19,19\n2,1,5,6,2,4,25,25\n",
            "",
        ),
        (
            "h\n1,10,0,0,1,2,9\n2,0,5,1,2,4,20\n",
            "deadline",
            Status::Refused,
            "",
            "refused tasks row 2 column 2 is 0\n",
        ),
        (
            "h\n1,10,0,281474976710655,1,2,9\n",
            "deadline",
            Status::Refused,
            "",
            "refused tasks row 1 releases too late\n",
        ),
    ] {
        let end = (status, out, err);
        assert!(rt;
            unrolls(rt.alloc(), tasks, policy, end)?,
            "{policy}: {tasks}"
        );
    }
    Ok(())
}
