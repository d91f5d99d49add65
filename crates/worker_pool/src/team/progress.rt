//! How far the packets of a capture were dealt to the lanes.

ghost use Rattle.std.specs.Prelude.{◌≡◌, ◌+◌, ◌≤◌, ◌++◌, [], ◌∷◌, List};
ghost use Rattle.pcap_source.specs.Captured.{Captured};
ghost use Rattle.lane_core.specs.Sight.{arrivals};
ghost use Rattle.run_outcome.specs.Greatest.{greatest};

use crate::team::dispatch::Whole;
use flow_timers::Moment;
use lane_join::greatest_with;

/// How far the packets of a capture were dealt to the lanes.
#[derive(Clone, Copy)]
pub(crate) struct Progress {
    /// How many packets were dealt.
    pub(crate) packets: u64,
    /// The greatest moment of these; none before the first.
    pub(crate) last: Option<Moment>,
}

impl Progress {
    /// The same with one packet more, of this moment.
    #[inline(always)]
    pub(crate) fn with_packet(self, moment: Moment) -> Progress
        requires few { self.packets ≤ 1048576 }
        ensures packets { result.packets ≡ self.packets + 1 }
        ensures last { (frames : List Captured) (frame : Captured)
            → moment ≡ record { seconds = frame.seconds; fraction = frame.fraction }
            → self.last ≡ greatest (arrivals 0 frames) → result.last ≡ greatest (arrivals 0 (frames ++ frame ∷ [])) }
    {
        Progress {
            packets: self.packets + 1,
            last: greatest_with(self.last, moment),
        }
    }

    /// The capture, where it ends here with a tail of so many bytes.
    pub(crate) fn whole(self, tail: u32) -> Whole
        ensures packets { result.packets ≡ self.packets }
        ensures tail { result.tail ≡ tail }
        ensures last { result.last ≡ self.last }
    {
        Whole {
            packets: self.packets,
            tail,
            last: self.last,
        }
    }
}
