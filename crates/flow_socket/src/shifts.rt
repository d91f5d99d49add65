//! The window scale of both ends, and the windows that packets advertise by it.

ghost use Rattle.std.specs.Prelude.{◌≡◌, ◌*◌, ◌^◌, ◌≤◌};
ghost use Rattle.std.specs.Option.{ForSome};
ghost use Rattle.tcp_emulation.specs.Ends.{end_at};
ghost use Rattle.flow_socket.specs.Windows.{no_shifts, shift_of, with_shift, shifts_after, shift_in_use, window_of, makes_offer, AreBounded};

use packet_views::Head;
use tcp_emulation::{Ends, Side};

/// The shift of each end, from 0 to 14: the window scale of the first packet with SYN that it sent
/// (RFC 7323, section 2.2). None where that packet had none, and before it.
#[derive(Clone, Copy, Debug, PartialEq, Eq)]
pub struct Shifts {
    pub client: Option<u8>,
    pub server: Option<u8>,
}

impl Shifts {
    /// The shifts before the first packet.
    pub(crate) fn new() -> Shifts
        ensures { result ≡ no_shifts }
    {
        Shifts {
            client: None,
            server: None,
        }
    }

    // The shifts with another one at this end.
    fn with(self, side: Side, scale: Option<u8>) -> Shifts
        ensures is { result ≡ with_shift side scale self }
    {
        match side {
            Side::Client => Shifts {
                client: scale,
                ..self
            },
            Side::Server => Shifts {
                server: scale,
                ..self
            },
        }
    }

    /// The shifts after `from` sent a packet with this window scale, where `ends` are those from
    /// before it.
    pub(crate) fn after(self, from: Side, h: &Head, scale: Option<u8>, ends: &Ends) -> Shifts
        requires shifts { AreBounded self }
        requires scale { ForSome scale (λ shift. shift ≤ 14) }
        ensures is { result ≡ shifts_after from h.now scale ends.now self }
        ensures bounded { AreBounded result }
    {
        if h.has_syn() && !has_sent_syn(ends, from) {
            self.with(from, scale)
        } else {
            self
        }
    }

    // The shift by which the windows of `from` are read.
    fn in_use(self, from: Side) -> u8
        requires { AreBounded self }
        ensures is { result ≡ shift_in_use from self }
        ensures bound { result ≤ 14 }
    {
        let (Some(client), Some(server)) = (self.client, self.server) else {
            return 0;
        };
        match from {
            Side::Client => client,
            Side::Server => server,
        }
    }

    /// The window that a packet of `from` advertises, in bytes. That of a SYN isn't scaled
    /// (RFC 7323, section 2.2).
    pub(crate) fn window(self, from: Side, h: &Head) -> u32
        requires { AreBounded self }
        ensures { result ≡ window_of from h.now self }
    {
        let shift = if h.has_syn() { 0 } else { self.in_use(from) };
        scaled(h.win, shift)
    }
}

// A window field with a shift.
fn scaled(field: u16, shift: u8) -> u32
    requires { shift ≤ 14 }
    ensures { result ≡ field * 2 ^ shift }
{
    u32::from(field) << shift
}

// Whether an end has sent a SYN.
fn has_sent_syn(ends: &Ends, side: Side) -> bool
    ensures { result ≡ (end_at side ends.now).has_sent_syn }
{
    match side {
        Side::Client => ends.client.has_sent_syn,
        Side::Server => ends.server.has_sent_syn,
    }
}

/// Whether a packet offers its window, where `ends` are those after it.
pub(crate) fn makes_offer(h: &Head, ends: &Ends) -> bool
    ensures { result ≡ makes_offer h.now ends.now }
{
    h.has_ack() && !h.has_rst() && ends.client.has_sent_syn && ends.server.has_sent_syn
}
