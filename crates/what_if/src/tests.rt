use crate::{EditFault, WhatIf, WhatIfFault, times_are_undone};
use job_model::{JobNo, JobTable};
use sag_graph::MOST_BUDGET;
use side_csv::{JobEdit, read_edits};
use small_tables::build_table;
use std::alloc::Global;

// Where the first job takes longer than 1, the second is there as it ends, and is the more urgent of the two that are left.
fn three(alloc: Global) -> Option<JobTable> {
    let rows = [
        [1, 1, 0, 0, 1, 1, 9, 1],
        [2, 1, 2, 2, 1, 1, 9, 2],
        [3, 1, 0, 0, 1, 1, 9, 3],
    ];
    build_table(alloc, &rows, &[]).ok()
}

// The costs and the deadline of the first job.
fn times_of_first(what_if: &WhatIf) -> Option<[u64; 3]> {
    if what_if.table().len() == 0 {
        return None;
    }
    let job = what_if.table().job(JobNo(0));
    Some([job.cmin, job.cmax, job.deadline])
}

// What an edit of the first job comes to within a budget of four states, and the job's times after it.
fn edited(alloc: Global, [cmin, cmax]: [u64; 2]) -> Option<(Result<(), EditFault>, [u64; 3])> {
    let mut what_if = WhatIf::new(alloc, three(alloc)?, 1, 4).ok()?;
    if what_if.table().len() == 0 {
        return None;
    }
    let edit = JobEdit {
        job: JobNo(0),
        cmin,
        cmax,
        deadline: 7,
    };
    let result = what_if.edit(edit);
    Some((result, times_of_first(&what_if)?))
}

#[test]
fn edits_within_the_budget(rt: HostRuntime) {
    times_are_undone();
    let before = [1, 1, 9];
    let spent = EditFault::Spent {
        level: 3,
        states: 5,
        edges: 4,
    };
    for (costs, want) in [
        ([2, 2], (Ok(()), [2, 2, 7])),
        ([1, 2], (Err(spent), before)),
        ([0, 1], (Err(EditFault::Cost), before)),
        ([2, 1], (Err(EditFault::Cost), before)),
    ] {
        assert_eq!(rt; edited(rt.alloc(), costs), Some(want));
    }
}

// The cores, the budget and the first job's times once all of the edits in the rows are made; or why not.
fn edited_by(
    alloc: Global,
    budget: u32,
    rows: &[u8],
) -> Option<Result<(u16, u32, [u64; 3]), WhatIfFault>> {
    let table = three(alloc)?;
    let Ok(edits) = read_edits(alloc, rows, &table) else {
        return None;
    };
    if budget < 1 || MOST_BUDGET < budget {
        return None;
    }
    let what_if = match WhatIf::new(alloc, table, 1, budget) {
        Ok(what_if) => what_if,
        Err(fault) => return Some(Err(fault)),
    };
    match what_if.with_edits(&edits) {
        Ok(done) => Some(Ok((done.cores(), done.budget(), times_of_first(&done)?))),
        Err(fault) => Some(Err(fault)),
    }
}

#[test]
fn makes_edits_in_order(rt: HostRuntime) {
    let twice = b"edits\n1,1,1,2,5\n1,1,2,2,6\n";
    let (three, four, five) = (
        WhatIfFault::Spent {
            level: 3,
            states: 4,
            edges: 3,
        },
        WhatIfFault::Spent {
            level: 3,
            states: 5,
            edges: 4,
        },
        (1, 5, [2, 2, 6]),
    );
    for (budget, want) in [(3, Err(three)), (4, Err(four)), (5, Ok(five))] {
        assert_eq!(rt; edited_by(rt.alloc(), budget, twice.as_slice()), Some(want));
    }
}
