use crate::{NotATable, blocking, build_table, late_and_urgent, one_predecessor, wide_release};
use job_model::{EdgeFault, JobNo, JobTable, TableFault};
use std::test::Fail;

// The greatest cost of the first job, and how many jobs and edges there are.
fn shape(table: &JobTable) -> (u16, usize, u64) {
    let most = if table.len() == 0 {
        0
    } else {
        table.job(JobNo(0)).cmax
    };
    (table.len(), table.edges().len(), most)
}

#[test]
fn makes_the_named_tables(rt: HostRuntime) -> Result<(), Fail> {
    let alloc = rt.alloc();
    assert_eq!(rt; shape(&blocking(alloc)?), (2, 0, 2));
    assert_eq!(rt; shape(&one_predecessor(alloc)?), (3, 1, 4));
    assert_eq!(rt; shape(&wide_release(alloc)?), (2, 0, 1));
    assert_eq!(rt; shape(&late_and_urgent(alloc)?), (3, 0, 10));
    Ok(())
}

#[test]
fn tells_why_there_is_no_table(rt: HostRuntime) {
    let alloc = rt.alloc();
    let row = [1, 1, 0, 0, 1, 1, 5, 1];
    let free = NotATable::Rows(TableFault::ZeroCost(1));
    let turned = NotATable::Pairs(EdgeFault::SelfEdge(1));
    let pairs = [(JobNo(0), JobNo(0))];
    assert_eq!(rt;
        build_table(alloc, &[[1, 1, 0, 0, 0, 1, 5, 1]], &[]).err(),
        Some(free)
    );
    assert_eq!(rt; build_table(alloc, &[row], &pairs).err(), Some(turned));
}
