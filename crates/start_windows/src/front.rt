//! Where the jobs begin that are not dispatched.

ghost use Rattle.std.specs.Prelude.{◌≡◌, length};
ghost use Rattle.start_windows.specs.Eligible.{IsFront, front_of};

use job_model::JobTable;
use job_sets::JobSet;

/// How many first jobs of the order of release are dispatched. `from` is a place before which all are:
/// 0 always serves, and so does the front of a smaller set. No earlier place is looked at.
pub fn front_from(table: &JobTable, set: &JobSet, from: u16) -> u16
    requires size { set.now.size ≡ length table.now.jobs }
    requires from { IsFront table.now set.now.members from }
    ensures front { result ≡ front_of table.now set.now.members }
    ensures is_front { IsFront table.now set.now.members result }
{
    let order = table.by_release();
    for place in usize::from(from)..order.len() {
        let entry = order[place];
        if !set.has(entry.1) {
            return place as u16;
        }
    }
    table.len()
}
