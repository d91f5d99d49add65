//! A law on the greatest moment of a capture's packets, which tells what is idle at its end.

ghost use Rattle.std.specs.Prelude.{◌≡◌, ◌<◌, [], ℕ, List, Some, None, length, get_or, false};
ghost use Rattle.std.specs.List.{All};
ghost use Rattle.flow_timers.specs.Moments.{is_idle};
ghost use Rattle.lane_core.specs.Sight.{Moment, Arrival};
ghost use Rattle.run_outcome.specs.Greatest.{greatest};

/// The greatest moment of packets is that of one of them, and that of none comes after it. There is none only where there
/// is no packet. This function does nothing: who speaks of that moment calls it for what it says.
pub fn no_packet_comes_after_the_greatest_moment()
    ensures greatest { (packets : List Arrival) (moment : Moment) → greatest packets ≡ Some moment
        → All (λ a. is_idle moment a.moment 0 ≡ false) packets }
    ensures own { (packets : List Arrival) (moment : Moment) → greatest packets ≡ Some moment
        → (k : ℕ) × (k < length packets) × ((d : Arrival) → (get_or packets k d).moment ≡ moment) }
    ensures none { (packets : List Arrival) → greatest packets ≡ None → packets ≡ [] }
{}
