//! Calls of `replay`.

ghost use Rattle.std.specs.Prelude.{◌≤◌};

use crate::calls::{call, held, stream, sure_stream};
use sag_engine::Status;
use std::alloc::{AllocError, Global};
use std::test::Fail;

// Two jobs, of which the less urgent may block.
const JOBS: &str = "h\n1,1,0,1,1,2,5,1\n2,1,0,0,2,3,9,2\n";

const SCENARIO: &str = "h\n1,1,1,2\n2,1,0,3\n";

const SCHEDULE: &str = "Task ID,Job ID,Start,Finish,Core\n2,1,0,3,0\n1,1,3,5,0\n";

// Three jobs: without precedence, the third starts on the second core when the second finishes.
const THREE_JOBS: &str = "h\n1,1,0,0,2,4,10,1\n2,1,0,0,1,1,10,2\n3,1,0,0,1,2,6,3\n";

const THREE_COSTS: &str = "h\n1,1,0,4\n2,1,0,1\n3,1,0,2\n";

// Whether `sag replay J S` ends so.
fn replays_to<'x>(
    alloc: Global,
    jobs: &'x str,
    scenario: &'x str,
    end: (Status, &str, &str),
) -> Result<bool, AllocError> {
    let files = held(alloc, &[("J", jobs), ("S", scenario)], 16, &[])?;
    let (out, err) = (sure_stream(alloc)?, sure_stream(alloc)?);
    let ended = call(alloc, &["sag", "replay", "J", "S"], files, out, err)?;
    Ok(ended.is(end.0, end.1, end.2))
}

#[test]
fn prints_schedules(rt: HostRuntime) -> Result<(), Fail> {
    let padded = "h\r\n 1 ,\t1,0 , 1,1,2 ,5,1\t\r\n\r\n2,1, 0 ,0,2,3,9,\t2\r\n";
    let late = "h\n1,1,0,281474976710655,1,1,9,1\n";
    let at_last = "Task ID,Job ID,Start,Finish,Core\n1,1,281474976710655,281474976710656,0\n";
    for (jobs, scenario, schedule) in [
        (JOBS, SCENARIO, SCHEDULE),
        (JOBS, "h\n2,1,0,3\n1,1,1,2\n", SCHEDULE),
        (padded, SCENARIO, SCHEDULE),
        (late, "h\n1,1,281474976710655,1\n", at_last),
        ("h", "h", "Task ID,Job ID,Start,Finish,Core\n"),
    ] {
        let end = (Status::Ok, schedule, "");
        assert!(rt; replays_to(rt.alloc(), jobs, scenario, end)?, "at {jobs}");
    }
    Ok(())
}

#[test]
fn refuses_files(rt: HostRuntime) -> Result<(), Fail> {
    for (jobs, scenario, text) in [
        ("", SCENARIO, "refused jobs no heading\n"),
        (
            JOBS,
            "h\n9,1,0,2\n",
            "refused scenario row 1 column 1 names no job\n",
        ),
        (
            JOBS,
            "h\n2,1,0,2\n",
            "refused scenario has no row for job 1 1\n",
        ),
    ] {
        let end = (Status::Refused, "", text);
        assert!(rt; replays_to(rt.alloc(), jobs, scenario, end)?, "at {text}");
    }
    Ok(())
}

// Whether `sag replay J S --prec P` over the three jobs on so many cores ends so, in pieces of `most` bytes.
fn replays_three_to(
    alloc: Global,
    prec: &str,
    cores: &str,
    most: usize,
    end: (Status, &str, &str),
) -> Result<bool, AllocError>
    requires { 1 ≤ most }
{
    let words = ["sag", "replay", "J", "S", "--prec", "P", "--cores", cores];
    let files = [("J", THREE_JOBS), ("P", prec), ("S", THREE_COSTS)];
    let files = held(alloc, &files, most, &[])?;
    let ended = call(
        alloc,
        &words,
        files,
        stream(alloc, most, 1, 0)?,
        sure_stream(alloc)?,
    )?;
    Ok(ended.is(end.0, end.1, end.2))
}

#[test]
fn runs_under_precedence(rt: HostRuntime) -> Result<(), Fail> {
    let after_first = "Task ID,Job ID,Start,Finish,Core\n1,1,0,4,0\n2,1,0,1,1\n3,1,4,6,0\n";
    let on_one = "Task ID,Job ID,Start,Finish,Core\n1,1,0,4,0\n2,1,4,5,0\n3,1,5,7,0\n";
    let before_first = "Task ID,Job ID,Start,Finish,Core\n2,1,0,1,0\n3,1,0,2,1\n1,1,2,6,0\n";
    let free = "Task ID,Job ID,Start,Finish,Core\n1,1,0,4,0\n2,1,0,1,1\n3,1,1,3,1\n";
    let cycle = "refused precedence row 2 closes a cycle\n";
    for (prec, cores, most, end) in [
        ("h\n1,1,3,1\n", "2", 16, (Status::Ok, after_first, "")),
        ("h\n1,1,3,1\n", "1", 16, (Status::Ok, on_one, "")),
        // As many cores as there may be; one byte a read and a write.
        ("h\n3,1,1,1\n", "256", 1, (Status::Ok, before_first, "")),
        // A heading alone leaves the table without edges.
        ("h", "2", 65_536, (Status::Ok, free, "")),
        (
            "h\n1,1,2,1\n2,1,1,1\n",
            "2",
            1,
            (Status::Refused, "", cycle),
        ),
    ] {
        let is_so = replays_three_to(rt.alloc(), prec, cores, most, end)?;
        assert!(rt; is_so, "at {prec} {cores} {most}");
    }
    Ok(())
}
