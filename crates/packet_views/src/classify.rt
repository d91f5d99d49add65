//! The class of a frame: the tests of its headers, in their order.

ghost use Rattle.std.specs.Prelude.{◌≡◌, ◌≢◌, ◌+◌, ◌*◌, ◌^◌, ◌<◌, ◌≤◌, ◌↔◌, IsTrue, IsNone, if◌then◌else◌, true, IfSome, IfOk, IfErr, length, slice_index, false};
ghost use Rattle.packet_views.specs.Frame.{field, carries, ip_start, ip_words, total_length, tcp_start, ip_end};
ghost use Rattle.packet_views.specs.Tcp.{is_tcp_bad};
ghost use Rattle.packet_views.specs.Packet.{is_ip_header_bad, is_fragment, class_of, head_of, payload_of, packet_of, Segment, NoSegment};
ghost use Rattle.packet_views.specs.Layout.{IsIpStart, IsTcpLayout};
ghost use Rattle.packet_views.specs.View.{IfTcp, IfOther, IsNoSegment};

use crate::fields::u16_at;
use crate::layout::Layout;
use crate::link::packet_start;
use crate::packet::Class;
use crate::view::{TcpView, View};
use std::ops::Range;

/// The type of a frame that carries an IPv4 packet (IEEE 802.3).
const TYPE_IPV4: u16 = 0x0800;

/// The number of TCP in the protocol field of IPv4 (RFC 791, section 3.1), and in the field Next Header of IPv6 (RFC 8200,
/// section 3).
pub const PROTOCOL_TCP: u8 = 6;

/// The More Fragments flag and the fragment offset in their field of the IPv4 header (RFC 791,
/// section 3.1). The bit above them is Don't Fragment.
const FRAGMENT_BITS: u16 = 0x3fff;

/// What a captured frame is, by its first bytes alone: a TCP segment borrowed in place, or the
/// class of what it is instead.
#[tactic(auto, unfolding(crate::specs::Packet::packet_of))]
pub fn view_of(frame: &[u8]) -> View<'_>
    ensures frame { IfTcp result (λ segment. segment ≡ frame.now) }
    ensures tcp { IfTcp result (λ _. class_of frame.now ≡ Class.Tcp) }
    ensures other { IfOther result (IsNoSegment frame.now) }
    ensures segment { IfTcp result (λ _. packet_of frame.now ≡ Segment (head_of frame.now) (payload_of frame.now)) }
    ensures no_segment { IfOther result (λ class. packet_of frame.now ≡ NoSegment class) }
{
    match layout_of(frame) {
        Ok(layout) => View::Tcp(TcpView::new(frame, layout)),
        Err(class) => View::Other(class),
    }
}

// The layout of a TCP segment, or the class of what is none.
#[tactic(auto, unfolding(crate::specs::Packet::class_of))]
fn layout_of(frame: &[u8]) -> Result<Layout, Class>
    ensures layout { IfOk result (IsTcpLayout frame.now) }
    ensures other { IfErr result (IsNoSegment frame.now) }
{
    let ip = packet_start(frame, TYPE_IPV4).ok_or(Class::Other)?;
    let segment = segment_of(frame, ip)?;
    Layout::of(frame, ip, segment.start, segment.end).ok_or(Class::Bad)
}

// The bytes of the TCP segment in the IPv4 packet that begins at `ip`, or the class of what is none.
#[tactic(auto, unfolding(crate::specs::Packet::class_of))]
fn segment_of(frame: &[u8], ip: usize) -> Result<Range<usize>, Class>
    requires start { IsIpStart frame.now ip }
    requires carried { carries 0x0800 frame.now ≡ true }
    ensures start { IfOk result (λ segment. segment.start ≡ tcp_start frame.now) }
    ensures end { IfOk result (λ segment. segment.end ≡ ip_end frame.now) }
    ensures class { IfOk result (λ segment. class_of frame.now
        ≡ (if is_tcp_bad segment.start segment.end frame.now then Class.Bad else Class.Tcp)) }
    ensures header { IfOk result (λ segment. ip + 20 ≤ segment.start) }
    ensures room { IfOk result (λ segment. segment.start ≤ segment.end) }
    ensures captured { IfOk result (λ segment. segment.end ≤ length frame.now) }
    ensures packet { IfOk result (λ segment. segment.end < ip + 2 ^ 16) }
    ensures other { IfErr result (IsNoSegment frame.now) }
{
    if frame.len() < ip + 20 {
        return Err(Class::Cut);
    }
    let header = 4 * usize::from(frame[ip] & 0x0f);
    let total = usize::from(u16_at(frame, ip + 2));
    if is_ip_header_bad(frame, ip) {
        return Err(Class::Bad);
    }
    if frame[ip + 9] != PROTOCOL_TCP {
        return Err(Class::Other);
    }
    if is_fragment(frame, ip) {
        return Err(Class::Fragment);
    }
    if frame.len() < ip + total {
        return Err(Class::Cut);
    }
    Ok(ip + header..ip + total)
}

// Whether the fields of the IPv4 header contradict each other.
#[tactic(auto, unfolding(crate::specs::Packet::is_ip_header_bad))]
fn is_ip_header_bad(frame: &[u8], ip: usize) -> bool
    requires start { IsIpStart frame.now ip }
    requires captured { ip + 20 ≤ length frame.now }
    ensures bad { result ≡ is_ip_header_bad frame.now }
    ensures header { result ≡ false → 5 ≤ ip_words frame.now }
    ensures total { result ≡ false → 4 * ip_words frame.now ≤ total_length frame.now }
{
    let version = frame[ip] >> 4;
    let words = frame[ip] & 0x0f;
    version != 4 || words < 5 || u16_at(frame, ip + 2) < 4 * u16::from(words)
}

// Whether the IPv4 packet is one of several fragments.
#[tactic(auto, unfolding(crate::specs::Packet::is_fragment))]
fn is_fragment(frame: &[u8], ip: usize) -> bool
    requires start { IsIpStart frame.now ip }
    requires captured { ip + 20 ≤ length frame.now }
    ensures { result ≡ is_fragment frame.now }
{
    u16_at(frame, ip + 6) & FRAGMENT_BITS != 0
}
