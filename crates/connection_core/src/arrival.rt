//! Packets that arrive, and the raises that they make.

ghost use Rattle.std.specs.Prelude.{◌≡◌, ◌≤◌, length};
ghost use Rattle.std.specs.Option.{ForSome};

use builtin_events::{FactSource, Raising};
use native_filters::Hook;
use packet_views::Head;
use tcp_emulation::Side;

/// A segment of a connection.
#[derive(Clone, Copy)]
pub struct Arrived<'a> {
    /// The packet's number, from 0.
    pub number: u64,
    /// Who sent it.
    pub from: Side,
    pub head: &'a Head,
    /// The window scale that it offers (RFC 7323, section 2.2), at most 14.
    pub scale: Option<u8>,
    /// Its `head.len` bytes.
    pub payload: &'a [u8],
    ghost shift: { ForSome scale (λ shift. shift ≤ 14) },
    ghost len: { head.now.len ≡ length payload.now },
    ghost bytes: { length payload.now ≤ 65535 },
}

/// One raise of a packet.
#[derive(Clone, Copy)]
pub(crate) struct RaiseAt<'a> {
    /// The packet's number.
    pub(crate) number: u64,
    /// Who sent it.
    pub(crate) from: Side,
    pub(crate) hook: Hook,
    /// The event that is raised.
    pub(crate) event: u16,
    /// What its facts are made of.
    pub(crate) source: FactSource<'a>,
}

/// One phase of a packet, and what it raises.
#[derive(Drop)]
pub(crate) struct Phase<'a> {
    /// The packet's number.
    pub(crate) number: u64,
    /// Who sent it.
    pub(crate) from: Side,
    pub(crate) raising: Raising<'a>,
}

impl Phase<'_> {
    ghost use Rattle.connection_core.specs.Standing.{raise_of};
    ghost use Rattle.builtin_events.specs.Source.{facts_of};

    /// Its raise of an event.
    #[inline(always)]
    pub(crate) fn raise_at(&self, event: u16) -> RaiseAt<'_>
        ensures number { result.number ≡ self.now.number }
        ensures from { result.from ≡ self.now.from }
        ensures raise { raise_of result
            ≡ record { hook = self.now.raising.hook; event = event; facts = facts_of self.now.raising.source } }
    {
        RaiseAt {
            number: self.number,
            from: self.from,
            hook: self.raising.hook,
            event,
            source: self.raising.source,
        }
    }
}
