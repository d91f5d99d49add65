//! Plain frames: without a tag, with a whole TCP segment over IPv4 whose header has no options and that is no fragment.
//! All their fields but the options of TCP and the payload stand at fixed places.

ghost use Rattle.std.specs.Prelude.{◌≡◌, ◌≤◌, IfSome, length};
ghost use Rattle.packet_views.specs.Frame.{ip_start, tcp_start, ip_end};
ghost use Rattle.packet_views.specs.Layout.{IsLayoutOf};
ghost use Rattle.packet_views.specs.Packet.{head_of};
ghost use Rattle.flow_table.specs.Endpoint.{source_of, destination_of};
ghost use Rattle.ip6_views.specs.Sight.{Tcp, segment_of, sight_of};
ghost use Rattle.ip6_views.specs.Seen.{seen};

use crate::sight::SightTcp;
use flow_table::Endpoint;
use packet_views::{Layout, PROTOCOL_TCP, u16_at, u32_at};

/// The type of a frame that carries an IPv4 packet (IEEE 802.3).
const TYPE_IPV4: u16 = 0x0800;

/// Version 4 and a header of 5 words: one without options (RFC 791, section 3.1).
const VERSION_AND_WORDS: u8 = 0x45;

/// The More Fragments flag and the fragment offset in their field of the IPv4 header (RFC 791, section 3.1).
const FRAGMENT_BITS: u16 = 0x3fff;

/// Where the IPv4 header begins.
const IP: usize = 14;

/// Where the TCP header begins.
const TCP: usize = 34;

/// Where what follows the fixed part of the TCP header begins.
const AFTER_FIXED: usize = 54;

/// The segment of a plain frame.
#[inline(always)]
#[tactic(auto, unfolding(packet_views::specs::Packet::head_of))]
pub(crate) fn plain_segment(frame: &[u8]) -> Option<SightTcp<'_>>
    ensures segment { IfSome result (λ s. seen s ≡ segment_of frame.now) }
    ensures sight { IfSome result (λ _. sight_of frame.now ≡ Tcp (segment_of frame.now)) }
{
    let layout = plain_layout(frame)?;
    let head = layout.head(
        frame,
        u32_at(frame, IP + 12),
        u32_at(frame, IP + 16),
        frame[IP + 8],
    );
    Some(SightTcp {
        head,
        from: Endpoint::source_of(&head),
        to: Endpoint::destination_of(&head),
        scale: layout.scale(frame),
        payload: layout.payload(frame),
    })
}

/// Who sent a plain frame's segment, and to whom.
#[derive(Clone, Copy)]
pub(crate) struct Ends {
    pub(crate) from: Endpoint,
    pub(crate) to: Endpoint,
}

/// The endpoints of a plain frame, without what else its segment has.
#[inline(always)]
#[tactic(auto, unfolding(packet_views::specs::Packet::head_of, packet_views::specs::Tcp::head_at, flow_table::specs::Endpoint::source_of, flow_table::specs::Endpoint::destination_of))]
pub(crate) fn plain_ends(frame: &[u8]) -> Option<Ends>
    ensures from { IfSome result (λ ends. ends.from ≡ source_of (head_of frame.now)) }
    ensures to { IfSome result (λ ends. ends.to ≡ destination_of (head_of frame.now)) }
    ensures sight { IfSome result (λ _. sight_of frame.now ≡ Tcp (segment_of frame.now)) }
{
    plain_layout(frame)?;
    Some(Ends {
        from: Endpoint::V4 {
            addr: u32_at(frame, IP + 12),
            port: u16_at(frame, TCP),
        },
        to: Endpoint::V4 {
            addr: u32_at(frame, IP + 16),
            port: u16_at(frame, TCP + 2),
        },
    })
}

// The layout of a plain frame.
#[inline(always)]
fn plain_layout(frame: &[u8]) -> Option<Layout>
    ensures layout { IfSome result (λ layout. IsLayoutOf frame.now layout) }
    ensures start { IfSome result (λ _. ip_start frame.now ≡ 14) }
    ensures tcp { IfSome result (λ layout. layout.tcp ≡ tcp_start frame.now) }
    ensures place { IfSome result (λ _. tcp_start frame.now ≡ 34) }
    ensures room { IfSome result (λ _. 54 ≤ length frame.now) }
    ensures end { IfSome result (λ layout. layout.end ≡ ip_end frame.now) }
    ensures sight { IfSome result (λ _. sight_of frame.now ≡ Tcp (segment_of frame.now)) }
{
    if frame.len() < AFTER_FIXED
        || u16_at(frame, 12) != TYPE_IPV4
        || frame[IP] != VERSION_AND_WORDS
        || frame[IP + 9] != PROTOCOL_TCP
        || u16_at(frame, IP + 6) & FRAGMENT_BITS != 0
    {
        return None;
    }
    let end = IP + usize::from(u16_at(frame, IP + 2));
    let words = frame[TCP + 12] >> 4;
    let payload = TCP + 4 * usize::from(words);
    if frame.len() < end || words < 5 || end < payload {
        return None;
    }
    Some(Layout {
        ip: IP,
        tcp: TCP,
        payload,
        end,
    })
}
