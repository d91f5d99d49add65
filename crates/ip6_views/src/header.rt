//! The headers of a frame that carries IPv6: the tests of its class, in their order.

ghost use Rattle.std.specs.Prelude.{◌≡◌, ◌+◌, ◌≤◌, ◌<◌, ◌^◌, IfOk, IfErr, length};
ghost use Rattle.packet_views.specs.Layout.{IsIpStart, IsLayoutOf};
ghost use Rattle.ip6_views.specs.Frame.{ip6_end, header_end, first_kind};
ghost use Rattle.ip6_views.specs.Chain.{TcpAt, chain};
ghost use Rattle.ip6_views.specs.Packet.{checked, found6_in};
ghost use Rattle.ip6_views.specs.Seen.{IsOnly};

use crate::chain::tcp_start;
use packet_views::{Class, Layout, u16_at};

/// The layout of a TCP segment in a frame whose IPv6 header begins at `ip`, or the class of what is none.
pub(crate) fn layout_of(frame: &[u8], ip: usize) -> Result<Layout, Class>
    requires start { IsIpStart frame.now ip }
    ensures layout { IfOk result (λ layout. IsLayoutOf frame.now layout) }
    ensures found { IfOk result (λ layout. found6_in frame.now ≡ TcpAt layout.tcp) }
    ensures end { IfOk result (λ layout. layout.end ≡ ip6_end frame.now) }
    ensures only { IfErr result (IsOnly (found6_in frame.now)) }
{
    let end = packet_end(frame, ip)?;
    let tcp = tcp_start(frame, end, frame[ip + 6], ip + 40)?;
    Layout::of(frame, ip, tcp, end).ok_or(Class::Bad)
}

// Where the IPv6 packet ends, if it was captured whole.
#[tactic(auto, unfolding(crate::specs::Packet::found6_in))]
fn packet_end(frame: &[u8], ip: usize) -> Result<usize, Class>
    requires start { IsIpStart frame.now ip }
    ensures end { IfOk result (λ end. end ≡ ip6_end frame.now) }
    ensures found { IfOk result (λ end. found6_in frame.now
        ≡ checked frame.now (chain 8 frame.now end (first_kind frame.now) (header_end frame.now))) }
    ensures header { IfOk result (λ end. ip + 40 ≤ end) }
    ensures captured { IfOk result (λ end. end ≤ length frame.now) }
    ensures packet { IfOk result (λ end. end < ip + 40 + 2 ^ 16) }
    ensures only { IfErr result (IsOnly (found6_in frame.now)) }
{
    let header_end = ip + 40;
    if frame.len() < header_end {
        return Err(Class::Cut);
    }
    if frame[ip] >> 4 != 6 {
        return Err(Class::Bad);
    }
    let end = header_end + usize::from(u16_at(frame, ip + 4));
    if frame.len() < end {
        return Err(Class::Cut);
    }
    Ok(end)
}
