//! The greatest moment of a capture's packets, which tells what is idle at its end.

ghost use Rattle.std.specs.Prelude.{◌≡◌, ◌++◌, [], ◌∷◌, List};
ghost use Rattle.pcap_source.specs.Captured.{Captured};
ghost use Rattle.lane_core.specs.Sight.{arrivals};
ghost use Rattle.run_outcome.specs.Greatest.{later_of, greatest};

use flow_timers::{Moment, is_idle};
use pcap_source::Frame;

// The greater of the greatest moment so far and one more.
fn later_of(so_far: Option<Moment>, moment: Moment) -> Moment
    ensures { result ≡ later_of so_far moment }
{
    match so_far {
        Some(greatest) if is_idle(moment, greatest, 0) => greatest,
        _ => moment,
    }
}

/// The moment of a captured packet.
pub fn moment_of(frame: &Frame) -> Moment
    ensures { result ≡ record { seconds = frame.now.seconds; fraction = frame.now.fraction } }
{
    Moment {
        seconds: frame.seconds,
        fraction: frame.fraction,
    }
}

/// The greatest moment of a capture's packets, with that of one packet more; `so_far` is that of the packets before it, and
/// none where it is the first. The moments of packets needn't rise.
#[inline(always)]
pub fn greatest_with(so_far: Option<Moment>, moment: Moment) -> Option<Moment>
    ensures greatest { (frames : List Captured) (frame : Captured)
        → moment ≡ record { seconds = frame.seconds; fraction = frame.fraction }
        → so_far ≡ greatest (arrivals 0 frames) → result ≡ greatest (arrivals 0 (frames ++ frame ∷ [])) }
{
    Some(later_of(so_far, moment))
}
