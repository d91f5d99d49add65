//! Moments of capture time.

ghost use Rattle.std.specs.Prelude.{◌≡◌};
ghost use Rattle.flow_timers.specs.Moments as moments;

/// A moment as a capture's record has it. No call asks for moments that rise.
#[derive(Clone, Copy, Debug, PartialEq, Eq)]
pub struct Moment {
    /// Whole seconds.
    pub seconds: u32,
    /// The rest, in the capture's unit of time (micro- or nanoseconds). Any number may stand here.
    pub fraction: u32,
}

// Whether `now` comes after the moment of `seconds` and `fraction`. A deadline's seconds need more than 32 bits.
pub(crate) fn is_past(seconds: u64, fraction: u32, now: Moment) -> bool
    ensures { result ≡ moments.comes_after now.seconds now.fraction seconds fraction }
{
    let now_seconds = u64::from(now.seconds);
    seconds < now_seconds || seconds == now_seconds && fraction < now.fraction
}

/// Whether what was last heard of at `last` is idle at `now`: more than `limit` seconds have passed. It takes no
/// memory. Where `now` is before `last`, it answers `false`.
#[tactic(auto, unfolding(crate::specs::Moments::is_idle))]
pub fn is_idle(last: Moment, now: Moment, limit: u32) -> bool
    ensures { result ≡ moments.is_idle last now limit }
{
    is_past(
        u64::from(last.seconds) + u64::from(limit),
        last.fraction,
        now,
    )
}
