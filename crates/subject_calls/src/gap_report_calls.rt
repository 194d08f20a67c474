ghost use Rattle.std.specs.Prelude.{◌≡◌, length};

use gap_report::{
    Gap, GapRow, last_trial, plain_trial, plain_trials_fit, takes_keep_ends, write_gap,
};
use job_model::JobTable;
use sag_time::Span;
use small_tables::{late_and_urgent, one_predecessor};
use std::alloc::{AllocError, Global};

// The spans of these ends.
fn spans_of(alloc: Global, ends: &[(u64, u64)]) -> Result<Vec<Span>, AllocError> {
    let mut spans = Vec::new(alloc);
    for (lo, hi) in ends {
        let Some(span) = Span::new(*lo, *hi) else {
            return Err(AllocError);
        };
        spans.push(span)?;
    }
    Ok(spans)
}

// The rows of the table on two cores, by the trials that need no graph, where its jobs have these spans.
fn rows_of(alloc: Global, table: &JobTable, spans: &[Span]) -> Result<Vec<GapRow>, AllocError>
    requires { length spans.now ≡ length table.now.jobs }
{
    let _count = table.len();
    let mut gap = Gap::new(alloc, table, 2);
    for k in 0..last_trial(table) + 1 {
        let scenario = plain_trial(alloc, table, k)?;
        gap.take(&scenario)?;
    }
    gap.rows(spans)
}

// Whether the table has this text.
fn has_text(alloc: Global, table: &JobTable, ends: &[(u64, u64)], text: &[u8]) -> Option<bool> {
    let spans = spans_of(alloc, ends).ok()?;
    if spans.len() != usize::from(table.len()) {
        return None;
    }
    let rows = rows_of(alloc, table, &spans).ok()?;
    let written = write_gap(alloc, &rows).ok()?;
    Some(written.as_slice() == text)
}

#[test]
fn compares_spans_with_the_plain_trials(rt: HostRuntime) {
    takes_keep_ends();
    plain_trials_fit();
    let alloc = rt.alloc();
    let waiting = b"Task ID,Job ID,BCCT,Inner BCCT,Best trial,Inner WCCT,Worst trial,WCCT\n\
        1,1,2,2,0,4,1,4\n2,1,1,1,0,1,0,1\n3,1,3,3,0,6,1,6\n";
    let late = b"Task ID,Job ID,BCCT,Inner BCCT,Best trial,Inner WCCT,Worst trial,WCCT\n\
        1,1,10,10,0,15,2,15\n2,1,3,3,0,3,0,3\n3,1,4,4,2,7,0,7\n";
    let Ok(table) = one_predecessor(alloc) else {
        panic!(rt; "no memory")
    };
    assert_eq!(rt;
        has_text(alloc, &table, &[(2, 4), (1, 1), (3, 6)], waiting.as_slice()),
        Some(true)
    );
    let Ok(table) = late_and_urgent(alloc) else {
        panic!(rt; "no memory")
    };
    assert_eq!(rt;
        has_text(alloc, &table, &[(10, 15), (3, 3), (4, 7)], late.as_slice()),
        Some(true)
    );
}
