//! What one phase raises, before its facts are made.

ghost use Rattle.std.specs.Prelude.{◌≡◌};
ghost use Rattle.builtin_events.specs.Raises.{sender_raises, receiver_raises};
ghost use Rattle.builtin_events.specs.Source.{raises_in};

use crate::phases::{events_at_receiver, events_at_sender};
use crate::raised::EventList;
use crate::source::FactSource;
use flow_socket::{Got, Sent};
use native_filters::Hook;
use packet_views::Head;
use tcp_emulation::Side;

/// What one phase of a packet raises. All its raises are at one side and have the same facts.
#[derive(Drop)]
pub struct Raising<'a> {
    /// The side.
    pub hook: Hook,
    /// What the facts of each raise are made of.
    pub source: FactSource<'a>,
    /// The numbers of the events, in the order in which they are raised.
    pub events: EventList,
}

/// The same as `raised_at_sender` gives, its facts not yet made. Takes no memory.
#[inline(always)]
pub fn raising_at_sender<'a>(
    h: &'a Head,
    from: Side,
    nth: u64,
    first: bool,
    s: &'a Sent,
) -> Raising<'a>
    ensures { raises_in result ≡ sender_raises h.now from nth first s.now }
{
    Raising {
        hook: Hook::Snd,
        source: FactSource::Sender {
            head: h,
            from,
            nth,
            sent: s,
        },
        events: events_at_sender(first, s),
    }
}

/// The same as `raised_at_receiver` gives, its facts not yet made. Takes no memory.
#[inline(always)]
pub fn raising_at_receiver<'a>(h: &'a Head, from: Side, nth: u64, g: &'a Got) -> Raising<'a>
    ensures { raises_in result ≡ receiver_raises h.now from nth g.now }
{
    Raising {
        hook: Hook::Rcv,
        source: FactSource::Receiver {
            head: h,
            from,
            nth,
            got: g,
        },
        events: events_at_receiver(h, g),
    }
}
