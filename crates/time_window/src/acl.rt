//! Rules of time windows, and what they decide.

ghost use Rattle.std.specs.Prelude.{◌≡◌};
ghost use Rattle.std.specs.List.{list_any};
ghost use Rattle.time_window.specs.Acl.{holds_second, holds_moment};

use listing::{AccessList, AccessRule, Listing, Moment};

/// The seconds from `start` on and below `end`, since 1970 UTC. One whose start is not below its end holds none.
#[derive(Clone, Copy, Debug, PartialEq, Eq)]
pub struct TimeWindow {
    pub start: u64,
    pub end: u64,
}

/// A list of windows.
pub type TimeWindowList = Listing<TimeWindow>;

/// What is to be done at the moments that one of the windows holds.
#[derive(Clone, Drop)]
pub struct TimeRule {
    pub windows: TimeWindowList,
    /// Whether a delivery is then allowed.
    pub allow: bool,
}

/// A list of rules.
pub type TimeRuleList = Listing<TimeRule>;

/// MI.TimeWindowACL (RFC 8006, section 4.2.3): rules, fewer than 2^32, or none given.
/// `TimeWindowAcl::decide` of a `Moment` says whether a delivery is allowed then, and by which rule.
pub type TimeWindowAcl = AccessList<TimeRule>;

impl AccessRule<Moment> for TimeRule {
    ghost holds = { holds_moment };

    ghost allows = { λ rule. rule.allow };

    /// Whether one of the rule's windows holds the moment.
    fn holds(&self, moment: Moment) -> bool {
        let second = moment / 1000;
        self.windows
            .as_slice()
            .iter()
            .any(|window| window.start <= second && second < window.end)
    }

    fn allows(&self) -> bool {
        self.allow
    }
}
