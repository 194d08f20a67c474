ghost use Rattle.std.specs.Prelude.{◌≤◌};

use job_model::JobNo;
use std::alloc::Global;
use task_unroll::{CsvFault, MOST_HORIZON, Policy, Task, TaskFault, read_tasks, unroll};

// Whether the text gives these tasks.
fn gives(alloc: Global, text: &[u8], want: &[Task]) -> bool {
    match read_tasks(alloc, text) {
        Ok(tasks) => tasks.as_slice() == want,
        Err(_) => false,
    }
}

#[test]
fn reads_tasks(rt: HostRuntime) {
    let plain =
        b"Task ID,Period,Offset,Jitter,Cost min,Cost max,Deadline\n1,10,0,1,1,2,9\n2,20,3,0,2,4,20\n";
    let padded = b"h\r\n 1,10 ,0,1,\t1,2,9\r\n\r\n2,20,3,0,2,4,\"20\"";
    let want = [
        Task::from_row([1, 10, 0, 1, 1, 2, 9]),
        Task::from_row([2, 20, 3, 0, 2, 4, 20]),
    ];
    for text in [plain.as_slice(), padded.as_slice()] {
        assert!(rt; gives(rt.alloc(), text, &want), "{text:?}");
    }
}

// Why the text gives no tasks.
fn fault_of(alloc: Global, text: &[u8]) -> Option<TaskFault> {
    read_tasks(alloc, text).err()
}

#[test]
fn refuses_files(rt: HostRuntime) {
    let cases: [(&[u8], TaskFault); 9] = [
        (b"", TaskFault::Csv(CsvFault::NoHeading)),
        (
            b"h\n1,0,0,0,1,1,1\n1,1,0,0,1,1,x\n",
            TaskFault::Csv(CsvFault::NotNumber(2, 7)),
        ),
        (
            b"h\n1,1,281474976710656,0,0,1,1\n",
            TaskFault::OverLimit(1, 3),
        ),
        (
            b"h\n1,0,0,0,1,70368744177664,1\n",
            TaskFault::OverLimit(1, 6),
        ),
        (
            b"h\n1,1,0,0,1,1,1\n2,0,0,0,2,1,1\n",
            TaskFault::ZeroPeriod(2),
        ),
        (
            b"h\n1,1,0,0,2,1,1\n1,0,0,0,2,1,1\n",
            TaskFault::SpanReversed(1),
        ),
        (b"h\n1,1,0,0,0,1,1\n", TaskFault::ZeroCost(1)),
        (
            b"h\n7,1,0,0,1,1,1\n8,1,0,0,1,1,1\n8,2,0,0,1,1,1\n",
            TaskFault::Twice(3, 2),
        ),
        (
            b"h\n7,1,0,0,1,1,1\n7,0,0,0,1,1,1\n",
            TaskFault::ZeroPeriod(2),
        ),
    ];
    for (text, fault) in cases {
        assert_eq!(rt; fault_of(rt.alloc(), text), Some(fault), "{text:?}");
    }
}

// How many jobs the tasks of the text release, and the row of the last.
fn released(
    alloc: Global,
    text: &[u8],
    horizon: u64,
    policy: Policy,
) -> Result<(u16, [u64; 8]), TaskFault>
    requires { horizon ≤ MOST_HORIZON }
{
    let tasks = read_tasks(alloc, text)?;
    let table = unroll(alloc, &tasks, horizon, policy)?;
    let count = table.len();
    if count == 0 {
        return Ok((0, [0; 8]));
    }
    Ok((count, table.job(JobNo(count - 1)).row()))
}

#[test]
fn unrolls_tasks(rt: HostRuntime) {
    let worked = b"h\n1,10,0,1,1,2,10\n2,20,0,0,2,4,20\n3,50,0,0,4,6,50\n".as_slice();
    let one = b"h\n1,13,0,1,4,6,15\n".as_slice();
    let cases = [
        (
            worked,
            100,
            Policy::Rate,
            (17, [3, 2, 50, 50, 4, 6, 100, 50]),
        ),
        (
            worked,
            100,
            Policy::Edf,
            (17, [3, 2, 50, 50, 4, 6, 100, 100]),
        ),
        (one, 26, Policy::Rate, (2, [1, 2, 13, 14, 4, 6, 28, 13])),
        (one, 27, Policy::Deadline, (3, [1, 3, 26, 27, 4, 6, 41, 15])),
        (one, 27, Policy::Edf, (3, [1, 3, 26, 27, 4, 6, 41, 41])),
        (b"h".as_slice(), MOST_HORIZON, Policy::Rate, (0, [0; 8])),
    ];
    for (text, horizon, policy, want) in cases {
        assert_eq!(rt; released(rt.alloc(), text, horizon, policy), Ok(want));
    }
}

#[test]
fn refuses_tasks(rt: HostRuntime) {
    let late = b"h\n1,1,281474976710654,2,1,1,1\n".as_slice();
    let late_behind_many = b"h\n1,1,0,0,1,1,1\n2,9,0,281474976710655,1,1,1\n".as_slice();
    let many = b"h\n1,1,0,0,1,1,1\n".as_slice();
    let cases = [
        (late, MOST_HORIZON, TaskFault::Late(1)),
        (late_behind_many, 16_385, TaskFault::Late(2)),
        (many, 16_385, TaskFault::TooMany),
        (many, MOST_HORIZON, TaskFault::TooMany),
    ];
    for (text, horizon, fault) in cases {
        assert_eq!(rt;
            released(rt.alloc(), text, horizon, Policy::Edf),
            Err(fault)
        );
    }
}
