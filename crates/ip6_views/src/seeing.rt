//! What is seen of a frame, by its first bytes alone.

ghost use Rattle.std.specs.Prelude.{◌≡◌, ◌≢◌};
ghost use Rattle.packet_views.specs.declared.packet.Class.{Class};
ghost use Rattle.packet_views.specs.Packet.{class_of};
ghost use Rattle.packet_views.specs.Layout.{IsIpStart};
ghost use Rattle.ip6_views.specs.Packet.{found6_in};
ghost use Rattle.ip6_views.specs.Sight.{sight4_with, sight6_with, sight_of};
ghost use Rattle.ip6_views.specs.Seen.{shown, IfOther, Shows};

use crate::header::layout_of;
use crate::plain::plain_segment;
use crate::segment::{segment4, segment6};
use crate::sight::Sight;
use packet_views::{View, packet_start, view_of};

/// The type of a frame that carries an IPv6 packet (RFC 2464, section 3).
const TYPE_IPV6: u16 = 0x86dd;

/// What a captured frame is: its TCP segment, over IPv4 or IPv6 and with its payload borrowed in place, or the class of
/// what it is instead. Over IPv6 the walk passes over at most 8 extension headers (RFC 8200, section 4): Hop-by-Hop
/// Options, Routing, Fragment where it splits nothing, Authentication and Destination Options.
#[inline(always)]
#[tactic(auto, unfolding(crate::specs::Sight::sight_of))]
pub fn sight_of(bytes: &[u8]) -> Sight<'_>
    ensures sight { shown result ≡ sight_of bytes.now }
    ensures not_tcp { IfOther result (λ class. class ≢ Class.Tcp) }
{
    match plain_segment(bytes) {
        Some(segment) => Sight::Tcp(segment),
        None => sight_of_any(bytes),
    }
}

/// The same of any frame, header by header.
#[inline(never)]
#[tactic(auto, unfolding(crate::specs::Sight::sight_of))]
pub(crate) fn sight_of_any(bytes: &[u8]) -> Sight<'_>
    ensures { Shows (sight_of bytes.now) result }
{
    match packet_start(bytes, TYPE_IPV6) {
        Some(ip) => sight6(bytes, ip),
        None => sight4(bytes),
    }
}

// What is seen of a frame that goes by the rules of IPv4.
fn sight4(frame: &[u8]) -> Sight<'_>
    ensures { Shows (sight4_with (class_of frame.now) frame.now) result }
{
    match view_of(frame) {
        View::Tcp(view) => Sight::Tcp(segment4(&view)),
        View::Other(class) => Sight::Other(class),
    }
}

// What is seen of a frame whose IPv6 header begins at `ip`.
#[inline(never)]
fn sight6(frame: &[u8], ip: usize) -> Sight<'_>
    requires { IsIpStart frame.now ip }
    ensures { Shows (sight6_with (found6_in frame.now) frame.now) result }
{
    match layout_of(frame, ip) {
        Ok(layout) => Sight::Tcp(segment6(frame, layout)),
        Err(class) => Sight::Other(class),
    }
}
