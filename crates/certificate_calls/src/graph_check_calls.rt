//! A certificate of two jobs on one core: a yes, a no, and that it stays. Edits for each clause are in conformance/edits.jsonl.

ghost use Rattle.std.specs.Prelude.{◌≡◌, ◌+◌, ◌<◌, ◌≤◌, ◌^◌, IfSome};
ghost use Rattle.cert_text.specs.Grammar.{second_version};
ghost use Rattle.cert_text.specs.Reader.{count_of_lines};
ghost use Rattle.cert_text.specs.Spelling.{FitsLine};

use cert_text::{CertLine, CertReader, Mark};
use graph_check::{CheckAnswer, Checker, Clause};
use job_model::{Job, JobTable};
use std::alloc::Global;
use std::test::Fail;

// A job by its row.
fn job(row: [u64; 8]) -> Job {
    let [task, job, rmin, rmax, cmin, cmax, deadline, priority] = row;
    Job {
        task,
        job,
        rmin,
        rmax,
        cmin,
        cmax,
        deadline,
        priority,
    }
}

// Two jobs, of which the more urgent may be released later.
fn two_jobs(alloc: Global) -> Option<JobTable> {
    let rows = [job([1, 1, 0, 1, 1, 2, 5, 1]), job([2, 1, 0, 0, 2, 3, 9, 2])];
    JobTable::from_rows(alloc, rows.to_vec(alloc).ok()?).ok()
}

// A certificate of the two jobs on one core.
fn certificate() -> [&'static str; 16] {
    [
        "sagcert 2 2 1\n",
        "level 0 1\n",
        "root 0:0\n",
        "level 1 2\n",
        "state 0 0 1:2 | |\n",
        "state 0 1 2:3 | |\n",
        "edge 0 0 0 0 0\n",
        "edge 0 1 0 0 1\n",
        "level 2 1\n",
        "state 0 1 3:5 | |\n",
        "edge 0 1 1 2 0\n",
        "edge 1 0 2 3 0\n",
        "job 0 1 5 ok\n",
        "job 1 2 5 ok\n",
        "verdict ok\n",
        "end\n",
    ]
}

// The line of that text.
fn line_of(reader: &mut CertReader, text: &str) -> Option<CertLine>
    requires few { count_of_lines reader.old.held < 2 ^ 63 }
    requires version { reader.old.grammar ≡ second_version }
    ensures fits { IfSome result (λ line. FitsLine second_version line) }
    ensures count { count_of_lines reader.new.held ≤ count_of_lines reader.old.held + 1 }
    ensures version { reader.new.grammar ≡ second_version }
{
    reader.feed(text.as_bytes()).ok()?;
    reader.take()
}

// The first no, or whether the end of the lines gives the intervals and marks of the two jobs.
fn checked(
    alloc: Global,
    table: &JobTable,
    lines: &[&str],
) -> Result<Result<bool, CheckAnswer>, Fail> {
    let mut reader = CertReader::new(alloc);
    let mut checker = Checker::new(alloc, table, 1)?;
    for text in lines {
        let Some(line) = line_of(&mut reader, text) else {
            return Err("it is a line")?;
        };
        if let Err(answer) = checker.step(line) {
            return Ok(Err(answer));
        }
    }
    Ok(ended(checker))
}

// What the end of the lines gives.
fn ended(checker: Checker) -> Result<bool, CheckAnswer> {
    let yes = checker.finish()?;
    let mut spans = yes.spans.iter().map(|span| (span.lo(), span.hi()));
    let in_order = spans.next() == Some((1, 5)) && spans.next() == Some((2, 5));
    Ok(in_order && yes.marks.as_slice() == [Mark::Ok, Mark::Ok].as_slice())
}

// The answer to the first lines of the certificate.
fn answer_to(alloc: Global, count: usize) -> Result<Result<bool, CheckAnswer>, Fail>
    requires { count ≤ 16 }
{
    let Some(table) = two_jobs(alloc) else {
        return Err("the rows keep the rules")?;
    };
    checked(alloc, &table, &certificate()[..count])
}

#[test]
fn a_valid_certificate_has_a_yes(rt: HostRuntime) -> Result<(), Fail> {
    assert_eq!(rt; answer_to(rt.alloc(), 16)?, Ok(true));
    let clause = Clause::K2;
    let no = Err(CheckAnswer::No { clause, line: 16 });
    assert_eq!(rt; answer_to(rt.alloc(), 15)?, no);
    Ok(())
}

// Whether a checker gives the same no to a wrong head line, to an end line behind it, and at the end.
fn no_stays(alloc: Global) -> Result<bool, Fail> {
    let Some(table) = two_jobs(alloc) else {
        return Err("the rows keep the rules")?;
    };
    let mut checker = Checker::new(alloc, &table, 1)?;
    let first = checker.step(CertLine::Head { jobs: 3, cores: 1 }).err();
    let second = checker.step(CertLine::End).err();
    let no = Some(CheckAnswer::No {
        clause: Clause::K1,
        line: 1,
    });
    Ok(first == no && second == no && checker.finish().err() == no)
}

#[test]
fn a_no_stays(rt: HostRuntime) -> Result<(), Fail> {
    assert!(rt; no_stays(rt.alloc())?);
    Ok(())
}
