use job_model::JobTable;
use response_report::{
    ReportRow, responses_within_wcrt, rows, task_rows, write_report, write_tasks,
};
use sag_time::Span;
use small_tables::build_table;
use std::alloc::{AllocError, Global};
use std::test::Fail;

// The spans of these ends.
fn spans_of(alloc: Global, ends: &[(u64, u64)]) -> Result<Vec<Span>, AllocError> {
    let mut spans = Vec::new(alloc);
    for (lo, hi) in ends {
        let Some(span) = Span::new(*lo, *hi) else {
            return Err(AllocError);
        };
        spans.push(span)?;
    }
    Ok(spans)
}

// The rows of the table's jobs with completion times between these ends.
fn rows_of(alloc: Global, table: &JobTable, ends: &[(u64, u64)]) -> Option<Vec<ReportRow>> {
    let spans = spans_of(alloc, ends).ok()?;
    if spans.len() == usize::from(table.len()) {
        rows(alloc, table, &spans).ok()
    } else {
        None
    }
}

// Whether the table's jobs with completion times between these ends have these reports.
fn reports(
    alloc: Global,
    jobs: &[[u64; 8]],
    ends: &[(u64, u64)],
    by_job: &[u8],
    by_task: &[u8],
) -> Option<bool> {
    let table = build_table(alloc, jobs, &[]).ok()?;
    let rows = rows_of(alloc, &table, ends)?;
    let tasks = task_rows(alloc, &rows).ok()?;
    let job_text = write_report(alloc, &rows).ok()?;
    let task_text = write_tasks(alloc, &tasks).ok()?;
    Some(job_text.as_slice() == by_job && task_text.as_slice() == by_task)
}

#[test]
fn reports_jobs_and_tasks(rt: HostRuntime) {
    responses_within_wcrt();
    let alloc = rt.alloc();
    // The greatest response of task 7 is neither its first nor its last, and its second job may finish before its release.
    let jobs = [
        [9, 1, 0, 0, 1, 9, 50, 1],
        [7, 1, 10, 12, 1, 9, 50, 2],
        [7, 2, 20, 20, 1, 9, 50, 3],
        [7, 3, 30, 30, 1, 9, 50, 4],
    ];
    let ends = [(0, 0), (11, 14), (19, 28), (31, 33)];
    let by_job = b"Task ID,Job ID,BCCT,WCCT,BCRT,WCRT\n\
        9,1,0,0,0,0\n7,1,11,14,1,4\n7,2,19,28,0,8\n7,3,31,33,1,3\n";
    let by_task = b"Task ID,WCRT\n7,8\n9,0\n";
    assert_eq!(rt;
        reports(alloc, &jobs, &ends, by_job.as_slice(), by_task.as_slice()),
        Some(true)
    );
    assert_eq!(rt;
        reports(
            alloc,
            &[],
            &[],
            b"Task ID,Job ID,BCCT,WCCT,BCRT,WCRT\n".as_slice(),
            b"Task ID,WCRT\n".as_slice()
        ),
        Some(true)
    );
}
