//! What the facts of a phase are made of. Most raises ask for none of them, so they are made where they are asked for.

ghost use Rattle.std.specs.Prelude.{◌≡◌};
ghost use Rattle.builtin_events.specs.Source.{facts_of};

use crate::facts::{receiver_facts, sender_facts};
use flow_socket::{Got, Sent};
use native_filters::Facts;
use packet_views::Head;
use tcp_emulation::Side;

/// What the facts of a phase are made of.
#[derive(Clone, Copy)]
pub enum FactSource<'a> {
    /// A packet's step at its sender: the packet's place in its connection, from 0, and its sender.
    Sender {
        head: &'a Head,
        from: Side,
        nth: u64,
        sent: &'a Sent,
    },
    /// The same at its receiver.
    Receiver {
        head: &'a Head,
        from: Side,
        nth: u64,
        got: &'a Got,
    },
    /// Facts that are made already.
    Made(&'a Facts),
}

impl FactSource<'_> {
    /// The facts.
    #[inline(always)]
    pub fn facts(&self) -> Facts
        ensures { result ≡ facts_of self.now }
    {
        match *self {
            FactSource::Sender {
                head,
                from,
                nth,
                sent,
            } => sender_facts(head, from, nth, sent),
            FactSource::Receiver {
                head,
                from,
                nth,
                got,
            } => receiver_facts(head, from, nth, got),
            FactSource::Made(facts) => *facts,
        }
    }
}
