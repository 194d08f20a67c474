ghost use Rattle.std.specs.Prelude.{◌≡◌, ◌<◌, IfSome};

use job_sets::{JobNo, JobSet, addition_keeps_set, addition_makes_member, members_fix_set};
use std::alloc::Global;
use std::test::Fail;

// The set of these two, of nine jobs.
fn pair(alloc: Global, one: JobNo, other: JobNo) -> Option<JobSet>
    requires one { one < 9 }
    requires other { other < 9 }
    ensures { IfSome result (λ s. s.size ≡ 9) }
{
    let mut set = JobSet::empty(alloc, 9).ok()?;
    set.add(one);
    set.add(other);
    Some(set)
}

#[test]
fn an_addition_makes_one_member(rt: HostRuntime) -> Result<(), Fail> {
    let mut set = JobSet::empty(rt.alloc(), 7)?;
    let first = [set.add(JobNo(5)), set.add(JobNo(1)), set.add(JobNo(5))];
    assert_eq!(rt; (first, set.count()), ([true, true, false], 2));
    let more = [set.add(JobNo(6)), set.add(JobNo(3)), set.add(JobNo(1))];
    assert_eq!(rt; (more, set.count()), ([true, true, false], 4));
    assert_eq!(rt;
        (set.size(), set.has(JobNo(6)), set.has(JobNo(0))),
        (7, true, false)
    );
    assert!(rt; set.contains_all(&[JobNo(3), JobNo(1)]));
    assert!(rt; !set.contains_all(&[JobNo(3), JobNo(2)]));
    addition_makes_member();
    addition_keeps_set();
    Ok(())
}

#[test]
fn sets_are_their_members(rt: HostRuntime) -> Result<(), Fail> {
    let alloc = rt.alloc();
    let (Some(one), Some(other), Some(mut set)) = (
        pair(alloc, JobNo(8), JobNo(0)),
        pair(alloc, JobNo(0), JobNo(8)),
        pair(alloc, JobNo(0), JobNo(7)),
    ) else {
        panic!(rt; "there is memory");
    };
    assert!(rt; one.same(&other));
    assert!(rt; !one.same(&set));
    set.copy_from(&one);
    let mut copy = set.copy(alloc)?;
    assert!(rt; one.same(&copy));
    assert!(rt; copy.add(JobNo(4)));
    assert!(rt; !one.same(&copy));
    members_fix_set();
    Ok(())
}

#[test]
fn sets_meet(rt: HostRuntime) -> Result<(), Fail> {
    let mut one = JobSet::empty(rt.alloc(), 130)?;
    let mut other = JobSet::empty(rt.alloc(), 130)?;
    one.add(JobNo(0));
    one.add(JobNo(64));
    one.add(JobNo(129));
    other.add(JobNo(129));
    other.add(JobNo(64));
    assert!(rt; other.within(&one) && !one.within(&other));
    assert!(rt; one.is_next(&other, JobNo(0)) && !one.is_next(&other, JobNo(1)));
    assert_eq!(rt;
        [
            one.next_missing(0),
            one.next_missing(64),
            one.next_missing(129)
        ],
        [1, 65, 130]
    );
    assert!(rt; one != other);
    one.keep_common(&other);
    assert!(rt; one == other && one.count() == 2);
    assert_eq!(rt;
        [one.remove(JobNo(64)), one.remove(JobNo(64))],
        [true, false]
    );
    assert!(rt; other.is_next(&one, JobNo(64)));
    Ok(())
}
