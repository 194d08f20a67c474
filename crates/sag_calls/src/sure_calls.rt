//! Calls over files and streams that cannot fail, the laws of calls, and the numbers of statuses.

use sag_edge::{FileBytes, FileName, MemFiles, MemSink, SureFiles, SureSink};
use sag_engine::{Status, calls_agree, one_answer, sag_run, words_suffice};
use std::alloc::{AllocError, Global};
use std::test::Fail;

const SCHEDULE: &str = "Task ID,Job ID,Start,Finish,Core\n2,1,0,3,0\n1,1,3,5,0\n";

// The words `sag replay J S`.
fn replay_words(alloc: Global) -> Result<Vec<String>, AllocError> {
    let mut list = Vec::new(alloc);
    for word in ["sag", "replay", "J", "S"] {
        list.push(String::from_str(alloc, word)?)?;
    }
    Ok(list)
}

// Two jobs, of which the less urgent may block, and a scenario of them.
fn two_jobs(alloc: Global) -> Result<Vec<(FileName, FileBytes)>, AllocError> {
    let mut list = Vec::new(alloc);
    for (name, text) in [
        ("J", "h\n1,1,0,1,1,2,5,1\n2,1,0,0,2,3,9,2\n"),
        ("S", "h\n1,1,1,2\n2,1,0,3\n"),
    ] {
        let bytes = Vec::from_slice(alloc, text.as_bytes())?;
        list.push((
            FileName::from_text(alloc, name)?,
            FileBytes::from_vec(bytes),
        ))?;
    }
    Ok(list)
}

#[test]
fn prints_a_schedule(rt: HostRuntime) -> Result<(), Fail> {
    let alloc = rt.alloc();
    let words = replay_words(alloc)?;
    let mut files = MemFiles::new(two_jobs(alloc)?, 16, Vec::new(alloc));
    let mut out = MemSink::new(alloc, 100, 10, Vec::new(alloc))?;
    let mut err = MemSink::new(alloc, 100, 10, Vec::new(alloc))?;
    let status = sag_run(alloc, &words, &mut files, &mut out, &mut err);
    assert_eq!(rt; status, Status::Ok);
    assert_eq!(rt; out.bytes(), SCHEDULE.as_bytes());
    assert_eq!(rt; err.bytes().len(), 0);
    one_answer();
    calls_agree();
    words_suffice();
    Ok(())
}

#[test]
fn never_fails_over_sure_files(rt: HostRuntime) -> Result<(), Fail> {
    let alloc = rt.alloc();
    let words = replay_words(alloc)?;
    let mut files = SureFiles::new(two_jobs(alloc)?);
    let mut out = SureSink::new(alloc, 100)?;
    let mut err = SureSink::new(alloc, 100)?;
    let status = sag_run(alloc, &words, &mut files, &mut out, &mut err);
    assert_eq!(rt; status, Status::Ok);
    Ok(())
}

#[test]
fn numbers_the_statuses(rt: HostRuntime) {
    for (status, number) in [
        (Status::Ok, 0),
        (Status::No, 1),
        (Status::Usage, 2),
        (Status::Refused, 3),
        (Status::Spent, 4),
        (Status::ReadFault, 5),
        (Status::WriteFault, 6),
        (Status::Memory, 7),
    ] {
        assert_eq!(rt; status.number(), number);
    }
}
