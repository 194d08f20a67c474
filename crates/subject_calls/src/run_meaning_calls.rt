use job_model::{Job, JobTable};
use job_sets::JobNo;
use run_meaning::{Place, Schedule, dispatch_order};
use std::alloc::Global;

fn job(task: u64, priority: u64) -> Job {
    Job {
        task,
        job: 1,
        rmin: 0,
        rmax: 0,
        cmin: 1,
        cmax: 2,
        deadline: 9,
        priority,
    }
}

// The order of three jobs that start at these times, the last more urgent than the others.
fn order_of(alloc: Global, starts: &[u64]) -> Option<Vec<JobNo>> {
    let rows = [job(1, 5), job(2, 5), job(3, 4)];
    let table = JobTable::from_rows(alloc, rows.to_vec(alloc).ok()?).ok()?;
    let mut places = Vec::with_capacity(alloc, starts.len()).ok()?;
    for start in starts {
        places
            .push(Place {
                start: *start,
                core: 0,
            })
            .ok()?;
    }
    if places.len() != usize::from(table.len()) {
        return None;
    }
    dispatch_order(alloc, &table, &Schedule { places }).ok()
}

#[test]
fn jobs_are_in_the_order_of_dispatch(rt: HostRuntime) {
    let alloc = rt.alloc();
    let (first, second, third) = (JobNo(0), JobNo(1), JobNo(2));
    let cases = [
        ([0, 1, 2], [first, second, third]),
        ([2, 1, 0], [third, second, first]),
        ([3, 3, 3], [third, first, second]),
        ([4, 0, 4], [second, third, first]),
    ];
    for (starts, expected) in cases {
        let Some(order) = order_of(alloc, &starts) else {
            panic!(rt; "there is memory");
        };
        assert_eq!(rt; order.as_slice(), expected.as_slice());
    }
}
