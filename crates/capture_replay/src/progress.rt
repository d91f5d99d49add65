//! How far a run has come in its capture.

ghost use Rattle.std.specs.Prelude.{◌≡◌, ◌+◌, ◌≤◌, Some};
ghost use Rattle.run_outcome.specs.Greatest.{later_of};

use flow_timers::{Moment, is_idle};

/// How far a run has come in its capture.
#[derive(Clone, Copy)]
pub(crate) struct Progress {
    /// How many packets it has read.
    pub(crate) packets: u64,
    /// The greatest moment of these; none before the first. Moments needn't rise.
    pub(crate) greatest: Option<Moment>,
}

// The greater of the greatest moment so far and one more.
#[inline(always)]
fn later_of(so_far: Option<Moment>, moment: Moment) -> Moment
    ensures { result ≡ later_of so_far moment }
{
    match so_far {
        Some(greatest) if is_idle(moment, greatest, 0) => greatest,
        _ => moment,
    }
}

impl Progress {
    /// The same with one packet more, of this moment.
    #[inline(always)]
    pub(crate) fn with_packet(self, moment: Moment) -> Progress
        requires few { self.packets ≤ 1048576 }
        ensures packets { result.packets ≡ self.packets + 1 }
        ensures greatest { result.greatest ≡ Some (later_of self.greatest moment) }
    {
        Progress {
            packets: self.packets + 1,
            greatest: Some(later_of(self.greatest, moment)),
        }
    }
}
