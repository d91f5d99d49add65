//! What is seen of a frame.

ghost use Rattle.std.specs.Prelude.{◌≡◌, ◌≤◌, length};
ghost use Rattle.std.specs.Option.{ForSome};

use flow_table::Endpoint;
use packet_views::{Class, Head};

/// A whole TCP segment over IPv4 or IPv6.
#[derive(Drop)]
pub struct SightTcp<'a> {
    /// The header fields. Over IPv6 `src` and `dst` are 0, and `ttl` is the hop limit (RFC 8200, section 3).
    pub head: Head,
    /// Who sent it.
    pub from: Endpoint,
    /// To whom it was sent.
    pub to: Endpoint,
    /// The window scale that it offers (RFC 7323, section 2.2), at most 14.
    pub scale: Option<u8>,
    /// The bytes behind the TCP header, at most 65,535, borrowed from the frame.
    pub payload: &'a [u8],
    ghost len: { head.len ≡ length payload.now },
    ghost bytes: { length payload.now ≤ 65535 },
    ghost shift: { ForSome scale (λ s. s ≤ 14) },
}

/// What a frame is.
#[derive(Drop)]
pub enum Sight<'a> {
    /// A whole TCP segment.
    Tcp(SightTcp<'a>),
    /// No whole TCP segment, and why.
    Other(Class),
}
