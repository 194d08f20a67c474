ghost use Rattle.sag_texts.specs.FaultTexts.{HasText};

use csv_numbers::CsvFault;
use job_model::{EdgeFault, TableFault};
use sag_edge::MemSink;
use sag_texts::FileKind::{Edits, Jobs, Precedence, Run, Scenario, Tasks};
use sag_texts::{Fault, USAGE, write_fault, write_spent};
use side_csv::SideFault;
use std::alloc::Global;
use std::process::Abort;
use std::test::Fail;
use task_unroll::TaskFault;

/// The fault is told by this line, to a sink that takes three bytes at a time.
fn is_told(rt: &impl Abort, alloc: Global, line: &str, fault: Fault) -> Result<(), Fail>
    requires { HasText fault }
{
    let mut sink = MemSink::new(alloc, 1000, 3, Vec::new(alloc))?;
    assert!(rt; write_fault(&mut sink, &fault).is_ok(), "at {line}");
    let line = format!(in alloc; "{line}\n")?;
    assert_eq!(rt; sink.bytes(), line.as_bytes());
    Ok(())
}

#[test]
fn tells_faults(rt: HostRuntime) -> Result<(), Fail> {
    let a = rt.alloc();
    is_told(&rt, a, USAGE.trim_end(), Fault::Usage)?;
    let too_long = "refused jobs file too long";
    is_told(&rt, a, too_long, Fault::TooLong(Jobs))?;
    let no_row = "refused scenario has no row for job 1 18446744073709551615";
    is_told(&rt, a, no_row, Fault::NoRow(Scenario, 1, u64::MAX))?;
    let text = Fault::Text { line: 16, byte: 1 };
    is_told(&rt, a, "refused certificate line 16 byte 1", text)?;
    let no_job = "refused job 1 18446744073709551615 is not in the table";
    is_told(&rt, a, no_job, Fault::NoJob(1, u64::MAX))?;
    is_told(&rt, a, "cannot read jobs", Fault::CannotRead(Jobs))?;
    is_told(&rt, a, "cannot read run", Fault::CannotRead(Run))?;
    let trial = Fault::NoTrial { trial: 10, most: 9 };
    is_told(&rt, a, "refused trial 10 is above 9", trial)?;
    is_told(&rt, a, "cannot write", Fault::CannotWrite)?;
    is_told(&rt, a, "no memory", Fault::NoMemory)
}

#[test]
fn tells_csv_faults(rt: HostRuntime) -> Result<(), Fail> {
    let above = "refused jobs row 1 column 7 is above 18446744073709551615";
    for (line, why) in [
        ("refused jobs no heading", CsvFault::NoHeading),
        ("refused jobs row 1 has 70 fields", CsvFault::Width(1, 70)),
        (
            "refused jobs row 2 column 8 is no number",
            CsvFault::NotNumber(2, 8),
        ),
        (above, CsvFault::TooBig(1, 7)),
    ] {
        is_told(&rt, rt.alloc(), line, Fault::Csv(Jobs, why))?;
    }
    Ok(())
}

#[test]
fn tells_table_faults(rt: HostRuntime) -> Result<(), Fail> {
    for (line, why) in [
        ("refused jobs too many rows", TableFault::TooMany),
        (
            "refused jobs row 1 column 4 is above the limit",
            TableFault::OverLimit(1, 4),
        ),
        (
            "refused jobs row 1 column 3 is above the next",
            TableFault::SpanReversed(1, 3),
        ),
        ("refused jobs row 2 column 5 is 0", TableFault::ZeroCost(2)),
        ("refused jobs row 3 repeats row 1", TableFault::Twice(3, 1)),
    ] {
        is_told(&rt, rt.alloc(), line, Fault::Table(why))?;
    }
    Ok(())
}

#[test]
fn tells_edge_faults(rt: HostRuntime) -> Result<(), Fail> {
    for (line, why) in [
        ("refused precedence too many rows", EdgeFault::TooManyEdges),
        (
            "refused precedence row 65536 names one job twice",
            EdgeFault::SelfEdge(65536),
        ),
        (
            "refused precedence row 2 closes a cycle",
            EdgeFault::Cycle(2),
        ),
        ("no memory", EdgeFault::Memory),
    ] {
        is_told(&rt, rt.alloc(), line, Fault::Edge(why))?;
    }
    Ok(())
}

#[test]
fn tells_side_faults(rt: HostRuntime) -> Result<(), Fail> {
    let a = rt.alloc();
    let csv = Fault::Side(Scenario, SideFault::Csv(CsvFault::NoHeading));
    is_told(&rt, a, "refused scenario no heading", csv)?;
    let unknown = Fault::Side(Scenario, SideFault::Unknown(4, 1));
    let line = "refused scenario row 4 column 1 names no job";
    is_told(&rt, a, line, unknown)?;
    let unknown = Fault::Side(Precedence, SideFault::Unknown(1, 3));
    let line = "refused precedence row 1 column 3 names no job";
    is_told(&rt, a, line, unknown)?;
    let twice = Fault::Side(Scenario, SideFault::Twice(2, 1));
    is_told(&rt, a, "refused scenario row 2 repeats row 1", twice)?;
    let outside = Fault::Side(Scenario, SideFault::Outside(1, 3));
    let line = "refused scenario row 1 column 3 is outside";
    is_told(&rt, a, line, outside)?;
    let outside = Fault::Side(Edits, SideFault::Outside(2, 4));
    is_told(&rt, a, "refused edits row 2 column 4 is outside", outside)
}

#[test]
fn tells_task_faults(rt: HostRuntime) -> Result<(), Fail> {
    let csv = TaskFault::Csv(CsvFault::Width(1, 6));
    is_told(
        &rt,
        rt.alloc(),
        "refused tasks row 1 has 6 fields",
        Fault::Tasks(csv),
    )?;
    for (line, why) in [
        (
            "refused tasks row 1 column 7 is above the limit",
            TaskFault::OverLimit(1, 7),
        ),
        (
            "refused tasks row 2 column 2 is 0",
            TaskFault::ZeroPeriod(2),
        ),
        (
            "refused tasks row 1 column 5 is above the next",
            TaskFault::SpanReversed(1),
        ),
        ("refused tasks row 3 column 5 is 0", TaskFault::ZeroCost(3)),
        ("refused tasks row 2 repeats row 1", TaskFault::Twice(2, 1)),
        ("refused tasks row 4 releases too late", TaskFault::Late(4)),
        ("refused tasks too many jobs", TaskFault::TooMany),
        ("no memory", TaskFault::Memory),
    ] {
        is_told(&rt, rt.alloc(), line, Fault::Tasks(why))?;
    }
    is_told(
        &rt,
        rt.alloc(),
        "cannot read tasks",
        Fault::CannotRead(Tasks),
    )
}

#[test]
fn stops_at_a_fault(rt: HostRuntime) -> Result<(), Fail> {
    let failing = vec![in rt.alloc(); 2]?;
    let mut sink = MemSink::new(rt.alloc(), 100, 3, failing)?;
    assert!(rt; write_fault(&mut sink, &Fault::CannotWrite).is_err());
    assert_eq!(rt; sink.bytes(), b"can".as_slice());
    Ok(())
}

#[test]
fn tells_what_was_spent(rt: HostRuntime) -> Result<(), Fail> {
    let mut sink = MemSink::new(rt.alloc(), 100, 100, Vec::new(rt.alloc()))?;
    assert_eq!(rt; write_spent(&mut sink, 3, 465, u64::MAX), Ok(()));
    let line = b"spent level 3 states 465 edges 18446744073709551615\n";
    assert_eq!(rt; sink.bytes(), line.as_slice());
    Ok(())
}
