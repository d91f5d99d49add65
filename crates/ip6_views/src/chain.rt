//! The chain of extension headers behind the fixed header of an IPv6 packet (RFC 8200, section 4).

ghost use Rattle.std.specs.Prelude.{◌≡◌, ◌≢◌, ◌+◌, ◌≤◌, ◌<◌, IfOk, IfErr, length, slice_index, Some, None};
ghost use Rattle.packet_views.specs.declared.packet.Class.{Class};
ghost use Rattle.ip6_views.specs.Chain.{TcpAt, is_extension, extension_length, splits, blocked, chain};
ghost use Rattle.ip6_views.specs.Seen.{IsOnly};

use packet_views::{Class, PROTOCOL_TCP, u16_at};

/// The numbers of the headers (RFC 8200, section 4; RFC 4302 for the Authentication header).
const HOP_BY_HOP: u8 = 0;

const ROUTING: u8 = 43;

const FRAGMENT: u8 = 44;

const AUTHENTICATION: u8 = 51;

const DESTINATION: u8 = 60;

/// How many extension headers are passed over at most. RFC 8200 sets no limit; the order that its section 4.1
/// recommends has seven places for them.
const MOST: usize = 8;

/// Where the TCP header begins in a packet that ends at `end` and has a header of the kind `first` at `start`, or the
/// class of what has none.
pub(crate) fn tcp_start(frame: &[u8], end: usize, first: u8, start: usize) -> Result<usize, Class>
    requires start { start ≤ end }
    requires captured { end ≤ length frame.now }
    ensures found { IfOk result (λ at. chain 8 frame.now end first start ≡ TcpAt at) }
    ensures from { IfOk result (λ at. start ≤ at) }
    ensures within { IfOk result (λ at. at ≤ end) }
    ensures only { IfErr result (IsOnly (chain 8 frame.now end first start)) }
{
    let mut kind = first;
    let mut at = start;
    let mut left = MOST;
    while kind != PROTOCOL_TCP {
        if !is_extension(kind) {
            return Err(Class::Other);
        }
        if left == 0 {
            return Err(Class::Bad);
        }
        let len = passable_length(frame, end, kind, at)?;
        kind = frame[at];
        at += len;
        left -= 1;
    }
    Ok(at)
}

// Whether a header of this kind is an extension header.
fn is_extension(kind: u8) -> bool
    ensures { result ≡ is_extension kind }
{
    matches!(
        kind,
        HOP_BY_HOP | ROUTING | FRAGMENT | AUTHENTICATION | DESTINATION
    )
}

// The bytes of the extension header at a place, if the walk may pass over it.
#[tactic(auto, unfolding(crate::specs::Chain::blocked))]
fn passable_length(frame: &[u8], end: usize, kind: u8, at: usize) -> Result<usize, Class>
    requires room { at ≤ end }
    requires captured { end ≤ length frame.now }
    ensures passed { IfOk result (λ _. blocked frame.now end kind at ≡ None) }
    ensures len { IfOk result (λ len. len ≡ extension_length kind at frame.now) }
    ensures some { IfOk result (λ _. at < end) }
    ensures fits { IfOk result (λ len. at + len ≤ end) }
    ensures blocked { IfErr result (λ class. blocked frame.now end kind at ≡ Some class) }
    ensures not_tcp { IfErr result (λ class. class ≢ Class.Tcp) }
{
    let room = end - at;
    if room < 8 {
        return Err(Class::Bad);
    }
    let len = extension_length(frame, kind, at);
    if len > room {
        return Err(Class::Bad);
    }
    if splits(frame, kind, at) {
        return Err(Class::Fragment);
    }
    Ok(len)
}

// The bytes of the extension header at a place, by its own length field.
fn extension_length(frame: &[u8], kind: u8, at: usize) -> usize
    requires { at + 2 ≤ length frame.now }
    ensures len { result ≡ extension_length kind at frame.now }
{
    let count = usize::from(frame[at + 1]);
    match kind {
        FRAGMENT => 8,
        AUTHENTICATION => (count + 2) * 4,
        _ => (count + 1) * 8,
    }
}

// Whether it is a Fragment header with the M flag or an offset. One with neither is an atomic fragment: the whole
// packet (RFC 8200, section 4.5).
fn splits(frame: &[u8], kind: u8, at: usize) -> bool
    requires { at + 4 ≤ length frame.now }
    ensures { result ≡ splits kind at frame.now }
{
    if kind != FRAGMENT {
        return false;
    }
    let field = u16_at(frame, at + 2);
    field >> 3 != 0 || field & 1 != 0
}
