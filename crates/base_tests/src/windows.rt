//! Boundaries of windows, and which rule decides.

use std::alloc::Global;
use std::test::Fail;
use time_window::{TimeRule, TimeRuleList, TimeWindow, TimeWindowAcl, TimeWindowList};

// the rule of these windows, each a start and an end in seconds
fn rule(alloc: Global, windows: &[(u64, u64)], allow: bool) -> Result<TimeRule, Fail> {
    let mut list = TimeWindowList::new(alloc);
    for (start, end) in windows {
        list.push(TimeWindow {
            start: *start,
            end: *end,
        })?;
    }
    Ok(TimeRule {
        windows: list,
        allow,
    })
}

#[test]
fn moments_of_windows(rt: HostRuntime) -> Result<(), Fail> {
    let alloc = rt.alloc();
    let mut rules = TimeRuleList::new(alloc);
    rules.push(rule(alloc, &[(10, 20), (30, 40)], true)?)?;
    rules.push(rule(alloc, &[(15, 35)], false)?)?;
    rules.push(rule(alloc, &[(60, 50), (60, 60)], true)?)?;
    rules.push(rule(alloc, &[(9007199254740991, 9007199254740992)], true)?)?;
    let acl = TimeWindowAcl::new(Some(rules)).expect(&rt, "few rules");
    for (moment, answer) in [
        (0, (false, None)),
        (9999, (false, None)),
        (10000, (true, Some(1))),
        (10001, (true, Some(1))),
        (19999, (true, Some(1))),
        (20000, (false, Some(2))),
        (29999, (false, Some(2))),
        (30000, (true, Some(1))),
        (39999, (true, Some(1))),
        (40000, (false, None)),
        (55000, (false, None)),
        (60000, (false, None)),
        (9007199254740990999, (false, None)),
        (9007199254740991000, (true, Some(4))),
        (9007199254740991999, (true, Some(4))),
        (9007199254740992000, (false, None)),
        (18446744073709551615, (false, None)),
    ] {
        assert_eq!(rt; acl.decide(moment), answer, "{moment}");
    }
    Ok(())
}

#[test]
fn absent_and_empty_rules(rt: HostRuntime) -> Result<(), Fail> {
    let alloc = rt.alloc();
    let absent = TimeWindowAcl::new(None).expect(&rt, "no rules");
    assert_eq!(rt; absent.decide(1000), (true, None));
    let none = TimeWindowAcl::new(Some(TimeRuleList::new(alloc))).expect(&rt, "few rules");
    assert_eq!(rt; none.decide(1000), (false, None));
    Ok(())
}
