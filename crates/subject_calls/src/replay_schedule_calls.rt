ghost use Rattle.std.specs.Prelude.{◌≤◌};
ghost use Rattle.job_model.specs.declared.limits.TheConstants.{MOST_CORES};

use job_model::{JobTable, Scenario};
use replay::{replay, write_schedule};
use small_tables::{NotATable, blocking, build_table, one_predecessor};
use std::alloc::Global;

// Whether this is the text of the schedule of the table with these releases and costs.
fn writes(
    alloc: Global,
    table: &JobTable,
    cores: u16,
    values: &[(u64, u64)],
    want: &str,
) -> Option<bool>
    requires some_core { 1 ≤ cores }
    requires few_cores { cores ≤ MOST_CORES }
{
    let scenario = Scenario::new(table, values.to_vec(alloc).ok()?)?;
    let schedule = replay(alloc, table, cores, &scenario).ok()?;
    let text = write_schedule(alloc, table, &scenario, &schedule).ok()?;
    Some(text.as_slice() == want.as_bytes())
}

// The same of what may be a table.
fn writes_if_table(
    alloc: Global,
    table: Result<JobTable, NotATable>,
    cores: u16,
    values: &[(u64, u64)],
    want: &str,
) -> Option<bool>
    requires some_core { 1 ≤ cores }
    requires few_cores { cores ≤ MOST_CORES }
{
    match table {
        Ok(table) => writes(alloc, &table, cores, values, want),
        Err(_) => None,
    }
}

#[test]
fn writes_rows_by_start_and_urgency(rt: HostRuntime) {
    let alloc = rt.alloc();

    // The less urgent job blocks.
    let text = "Task ID,Job ID,Start,Finish,Core\n2,1,0,3,0\n1,1,3,5,0\n";
    let answer = writes_if_table(alloc, blocking(alloc), 1, &[(1, 2), (0, 3)], text);
    assert_eq!(rt; answer, Some(true));

    // At one start and one priority the lower IDs come first.
    let last = u64::MAX;
    let tied = build_table(
        alloc,
        &[[last, last, 0, 1, 1, 3, 9, 7], [last, 9, 0, 1, 1, 3, 9, 7]],
        &[],
    );
    let text =
        "Task ID,Job ID,Start,Finish,Core\n18446744073709551615,9,1,3,0\n18446744073709551615,18446744073709551615,1,2,1\n";
    let answer = writes_if_table(alloc, tied, 2, &[(1, 1), (1, 2)], text);
    assert_eq!(rt; answer, Some(true));

    // A job starts when its predecessor has finished.
    let text = "Task ID,Job ID,Start,Finish,Core\n1,1,0,4,0\n2,1,0,1,1\n3,1,4,6,0\n";
    let values = [(0, 4), (0, 1), (0, 2)];
    let answer = writes_if_table(alloc, one_predecessor(alloc), 2, &values, text);
    assert_eq!(rt; answer, Some(true));
}
