//! Deadlines, in the order in which they pass.

ghost use Rattle.std.specs.Prelude.{◌≡◌, ◌&&◌, not, true, false, if◌then◌else◌, IfSome, IfNone};
ghost use Rattle.std.specs.BTreeSet.{contains, btree_set_len, IsLowerBound};
ghost use Rattle.std.specs.Ordering.{eq_by_cmp};
ghost use Rattle.flow_timers.specs.Moments.{comes_after};

use crate::book::Noted;
use crate::moment::{Moment, is_past};
use std::collections::BTreeSet;

/// The last moment at which a name isn't idle yet, and the name. The order of the fields is that of deadlines.
#[derive(Clone, Copy, PartialEq, Eq, PartialOrd, Ord)]
pub(crate) struct Deadline {
    pub seconds: u64,
    pub fraction: u32,
    pub name: u64,
}

impl Deadline {
    ghost use Rattle.flow_timers.specs.Deadlines.{deadline_of};

    pub(crate) fn of(name: u64, noted: Noted) -> Deadline
        ensures { result ≡ deadline_of name noted }
    {
        Deadline {
            seconds: u64::from(noted.last.seconds) + u64::from(noted.limit),
            fraction: noted.last.fraction,
            name,
        }
    }

    pub(crate) fn has_passed(self, now: Moment) -> bool
        ensures { result ≡ comes_after now.seconds now.fraction self.seconds self.fraction }
    {
        is_past(self.seconds, self.fraction, now)
    }
}

ghost use Rattle.flow_timers.specs.Deadlines.{order};

/// The deadline that passes first.
pub(crate) fn first_of(deadlines: &BTreeSet<Deadline>) -> Option<Deadline>
    ensures member { IfSome result (λ d. contains order deadlines.now d ≡ true) }
    ensures least { IfSome result (IsLowerBound order deadlines.now) }
    ensures none { IfNone result (btree_set_len deadlines.now ≡ 0) }
{
    Some(*deadlines.first()?)
}

/// Takes the deadline that a name had away, unless it is also the one that the name has now.
pub(crate) fn take_old(deadlines: &mut BTreeSet<Deadline>, old: Deadline, new: Deadline)
    ensures { (d : Deadline) → contains order deadlines.new d
        ≡ (if eq_by_cmp order old d && not (eq_by_cmp order new d) then false else contains order deadlines.old d) }
{
    if old != new {
        deadlines.remove(&old);
    }
}
