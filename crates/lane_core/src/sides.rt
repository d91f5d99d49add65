//! Who sent a segment, and whether it opens a connection.

ghost use Rattle.std.specs.Prelude.{◌≡◌};
ghost use Rattle.lane_core.specs.Sight.{Tcp};
ghost use Rattle.lane_core.specs.Records.{opens, side_of};
ghost use Rattle.ip6_views.specs.Seen.{seen};

use flow_table::Endpoint;
use ip6_views::SightTcp;
use tcp_emulation::Side;

/// Which end of a connection with this client sent a segment.
#[inline(always)]
pub(crate) fn side_of(client: &Endpoint, segment: &SightTcp<'_>) -> Side
    ensures { result ≡ side_of client.now (seen segment.now) }
{
    if *client == segment.from {
        Side::Client
    } else {
        Side::Server
    }
}

/// Whether a segment opens a connection: SYN with neither ACK nor RST (RFC 9293, section 3.5).
#[tactic(auto, unfolding(crate::specs::Records::opens))]
pub(crate) fn is_opening(segment: &SightTcp<'_>) -> bool
    ensures { result ≡ opens (Tcp (seen segment.now)) }
{
    let head = &segment.head;
    head.has_syn() && !head.has_ack() && !head.has_rst()
}
