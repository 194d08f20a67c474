//! Calls of which the outside fails.

use crate::calls::{call, held, stream, sure_stream};
use sag_engine::Status;
use sag_texts::USAGE;
use std::alloc::{AllocError, Global};
use std::test::Fail;

const WORDS: [&str; 6] = ["sag", "replay", "J", "S", "--prec", "P"];

// 34 bytes of jobs, 10 of precedence and 18 of a scenario.
const FILES: [(&str, &str); 3] = [
    ("J", "h\n1,1,0,1,1,2,5,1\n2,1,0,0,2,3,9,2\n"),
    ("P", "h\n2,1,1,1\n"),
    ("S", "h\n1,1,1,2\n2,1,0,3\n"),
];

const SCHEDULE: &str = "Task ID,Job ID,Start,Finish,Core\n2,1,0,3,0\n1,1,3,5,0\n";

// Whether the call ends so where this read fails, 0 being the beginning of the file.
fn ends_at_read(
    alloc: Global,
    name: &str,
    read: u64,
    end: (Status, &str, &str),
) -> Result<bool, AllocError> {
    let files = held(alloc, &FILES, 16, &[(name, read)])?;
    let ended = call(
        alloc,
        &WORDS,
        files,
        sure_stream(alloc)?,
        sure_stream(alloc)?,
    )?;
    Ok(ended.is(end.0, end.1, end.2))
}

#[test]
fn tells_which_file_cannot_be_read(rt: HostRuntime) -> Result<(), Fail> {
    // 16 bytes at a time, and the end: four reads, two and three
    for (name, reads, text) in [
        ("J", 4, "cannot read jobs\n"),
        ("P", 2, "cannot read precedence\n"),
        ("S", 3, "cannot read scenario\n"),
    ] {
        for read in 0..=reads {
            let end = (Status::ReadFault, "", text);
            assert!(rt;
                ends_at_read(rt.alloc(), name, read, end)?,
                "at {name} {read}"
            );
        }
        let end = (Status::Ok, SCHEDULE, "");
        assert!(rt;
            ends_at_read(rt.alloc(), name, reads + 1, end)?,
            "behind {name}"
        );
    }
    Ok(())
}

// Whether the call ends so where these calls of the output fail, which takes 10 bytes at a time.
fn ends_at_write(
    alloc: Global,
    first: u64,
    last: u64,
    end: (Status, &str, &str),
) -> Result<bool, AllocError> {
    let files = held(alloc, &FILES, 16, &[])?;
    let out = stream(alloc, 10, first, last)?;
    let ended = call(alloc, &WORDS, files, out, sure_stream(alloc)?)?;
    Ok(ended.is(end.0, end.1, end.2))
}

#[test]
fn writes_a_prefix_before_a_fault(rt: HostRuntime) -> Result<(), Fail> {
    // 53 bytes, 10 at a time, and the end: seven calls; each fails once, and from then on
    for (first, taken) in [
        (1, ""),
        (2, "Task ID,Jo"),
        (3, "Task ID,Job ID,Start"),
        (4, "Task ID,Job ID,Start,Finish,Co"),
        (5, "Task ID,Job ID,Start,Finish,Core\n2,1,0,3"),
        (6, "Task ID,Job ID,Start,Finish,Core\n2,1,0,3,0\n1,1,3,5"),
        (7, SCHEDULE),
    ] {
        for last in [first, 8] {
            let end = (Status::WriteFault, taken, "cannot write\n");
            assert!(rt;
                ends_at_write(rt.alloc(), first, last, end)?,
                "at {first} {last}"
            );
        }
    }
    let end = (Status::Ok, SCHEDULE, "");
    assert!(rt; ends_at_write(rt.alloc(), 8, 8, end)?);
    Ok(())
}

// Whether a job file without a heading is refused with this text told, where these calls of the errors fail.
fn refuses_with(alloc: Global, first: u64, last: u64, told: &str) -> Result<bool, AllocError> {
    let files = held(alloc, &[("J", ""), ("S", "h")], 16, &[])?;
    let err = stream(alloc, 10, first, last)?;
    let ended = call(
        alloc,
        &["sag", "replay", "J", "S"],
        files,
        sure_stream(alloc)?,
        err,
    )?;
    Ok(ended.is(Status::Refused, "", told))
}

#[test]
fn keeps_the_status_where_the_errors_fail(rt: HostRuntime) -> Result<(), Fail> {
    // The text is written in pieces of at most 10 bytes.
    for (first, told) in [
        (1, ""),
        (2, "refused "),
        (3, "refused jobs"),
        (4, "refused jobs no headin"),
        (5, "refused jobs no heading"),
        (6, "refused jobs no heading\n"),
    ] {
        for last in [first, 6] {
            assert!(rt;
                refuses_with(rt.alloc(), first, last, told)?,
                "at {first} {last}"
            );
        }
    }
    Ok(())
}

// Whether a file is refused with this text, where the scenario file cannot be read.
fn refuses_before_the_scenario<'x>(
    alloc: Global,
    jobs: &'x str,
    prec: &'x str,
    text: &str,
) -> Result<bool, AllocError> {
    let files = [("J", jobs), ("P", prec), ("S", "h")];
    let files = held(alloc, &files, 16, &[("S", 0)])?;
    let ended = call(
        alloc,
        &WORDS,
        files,
        sure_stream(alloc)?,
        sure_stream(alloc)?,
    )?;
    Ok(ended.is(Status::Refused, "", text))
}

#[test]
fn judges_each_file_before_the_next(rt: HostRuntime) -> Result<(), Fail> {
    for (jobs, prec, text) in [
        ("h\n1", "h\n1", "refused jobs row 1 has 1 fields\n"),
        ("h", "h\n1", "refused precedence row 1 has 1 fields\n"),
    ] {
        assert!(rt;
            refuses_before_the_scenario(rt.alloc(), jobs, prec, text)?,
            "at {text}"
        );
    }
    Ok(())
}

// Whether words that ask for no command are told the usage.
fn tells_usage(alloc: Global, words: &[&str]) -> Result<bool, AllocError> {
    let files = held(alloc, &[], 16, &[])?;
    let ended = call(
        alloc,
        words,
        files,
        sure_stream(alloc)?,
        sure_stream(alloc)?,
    )?;
    Ok(ended.is(Status::Usage, "", USAGE))
}

#[test]
fn tells_the_usage(rt: HostRuntime) -> Result<(), Fail> {
    for words in [
        ["sag"].as_slice(),
        ["sag", "analyze", "J"].as_slice(),
        ["sag", "replay", "J"].as_slice(),
        ["sag", "replay", "J", "S", "--cores", "257"].as_slice(),
    ] {
        assert!(rt; tells_usage(rt.alloc(), words)?, "at {words:?}");
    }
    Ok(())
}
