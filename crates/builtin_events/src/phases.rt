//! What is raised in both phases of a packet, by an orphan, and where a connection ended by idleness.

ghost use Rattle.std.specs.Prelude.{◌≡◌, [], ◌∷◌, ℕ, IsTrue};
ghost use Rattle.std.specs.Option.{option_copied};
ghost use Rattle.native_filters.specs.declared.facts.Hook.TheVariants.{Snd, Rcv};
ghost use Rattle.packet_views.specs.declared.packet.Head.{Head as HeadOf};
ghost use Rattle.tcp_emulation.specs.declared.segment.Side.{Side};
ghost use Rattle.app_api.specs.Events as events;
ghost use Rattle.builtin_events.specs.Facts.{sender_facts, receiver_facts, orphan_facts, timer_facts};
ghost use Rattle.builtin_events.specs.Raised.{raises_of, raises_with};
ghost use Rattle.builtin_events.specs.Raises.{sender_raises, receiver_raises, orphan_raises, timer_raise};

use crate::facts::{orphan_facts, read_bytes, receiver_facts, sender_facts, timer_facts};
use crate::raise::RaiseList;
use crate::raised::{EventList, Raised};
use app_api::events::{END, ERROR, NEW_DATA, ORPHAN, PKT_IN, REXMIT, START, STATE, TIMER};
use flow_socket::{Got, Sent};
use flow_table::Endpoint;
use native_filters::Hook;
use packet_views::{Class, Head};
use tcp_emulation::Side;

/// How many events one phase may raise.
pub(crate) const MOST_RAISES: usize = 8;

/// What a packet raises at its sender, after the sender's step: `start` where it is the connection's
/// first packet, `pkt_in`, and `state` where the sender's state changed. `nth` is the packet's place in
/// its connection, from 0, and `from` its sender. Takes no memory.
#[tactic(auto, unfolding(crate::specs::Raises::sender_raises))]
pub fn raised_at_sender(h: &Head, from: Side, nth: u64, first: bool, s: &Sent) -> Raised
    ensures raises { raises_of result ≡ sender_raises h.now from nth first s.now }
    ensures hook { result.hook ≡ Hook.Snd }
    ensures facts { result.facts ≡ sender_facts h.now from nth s.now }
{
    Raised {
        hook: Hook::Snd,
        facts: sender_facts(h, from, nth, s),
        events: events_at_sender(first, s),
    }
}

/// The events of these raises.
#[inline(always)]
#[tactic(auto, unfolding(crate::specs::Raises::sender_raises, crate::specs::Facts::sender_facts))]
pub(crate) fn events_at_sender(first: bool, s: &Sent) -> EventList
    ensures { (h : HeadOf) (from : Side) (nth : ℕ) → raises_with Snd (sender_facts h from nth s.now) result
        ≡ sender_raises h from nth first s.now }
{
    let mut events = EventList::new();
    events.add_if(first, START);
    events.add_if(true, PKT_IN);
    events.add_if(s.change.old.number() != s.change.new.number(), STATE);
    events
}

/// Whether a packet raises `pkt_in` alone at its sender, as nearly all do.
#[inline(always)]
#[tactic(auto, unfolding(crate::specs::Raises::sender_raises, crate::specs::Facts::sender_facts))]
pub fn is_alone_at_sender(first: bool, s: &Sent) -> bool
    ensures { IsTrue result → (h : HeadOf) (from : Side) (nth : ℕ) → sender_raises h from nth first s.now
        ≡ record { hook = Snd; event = events.PKT_IN; facts = sender_facts h from nth s.now } ∷ [] }
{
    !first && s.change.old.number() == s.change.new.number()
}

/// What a packet raises at its receiver, after the receiver's step: `pkt_in`, `rexmit` where bytes
/// came again, `new_data` where the stream's next position rose, `error` where there is a fault, `state`
/// where the receiver's state changed, and `end` where the connection is over. Takes no memory.
#[tactic(auto, unfolding(crate::specs::Raises::receiver_raises))]
pub fn raised_at_receiver(h: &Head, from: Side, nth: u64, g: &Got) -> Raised
    ensures raises { raises_of result ≡ receiver_raises h.now from nth g.now }
    ensures hook { result.hook ≡ Hook.Rcv }
    ensures facts { result.facts ≡ receiver_facts h.now from nth g.now }
{
    Raised {
        hook: Hook::Rcv,
        facts: receiver_facts(h, from, nth, g),
        events: events_at_receiver(h, g),
    }
}

/// The events of these raises.
#[inline(always)]
#[tactic(auto, unfolding(crate::specs::Raises::receiver_raises, crate::specs::Facts::receiver_facts))]
pub(crate) fn events_at_receiver(h: &Head, g: &Got) -> EventList
    ensures { (from : Side) (nth : ℕ) → raises_with Rcv (receiver_facts h.now from nth g.now) result
        ≡ receiver_raises h.now from nth g.now }
{
    let mut events = EventList::new();
    events.add_if(true, PKT_IN);
    events.add_if(read_bytes(h, g.placed.old) > 0, REXMIT);
    events.add_if(g.rose, NEW_DATA);
    events.add_if(g.fault != 0, ERROR);
    events.add_if(g.change.old.number() != g.change.new.number(), STATE);
    events.add_if(g.over, END);
    events
}

/// What a packet that belongs to no connection raises: `orphan` alone. Its header fields count for class
/// tcp alone. Takes no memory.
#[tactic(auto, unfolding(crate::specs::Raises::orphan_raises))]
pub fn raised_by_orphan(class: Class, h: Option<&Head>) -> Raised
    ensures raises { raises_of result ≡ orphan_raises class (option_copied h.entry) }
    ensures hook { result.hook ≡ Hook.Snd }
    ensures facts { result.facts ≡ orphan_facts class (option_copied h.entry) }
{
    let mut events = EventList::new();
    events.add_if(true, ORPHAN);
    Raised {
        hook: Hook::Snd,
        facts: orphan_facts(class, h),
        events,
    }
}

/// What a connection raises that ended by idleness, after the packets that it had: `timer` alone, at the receiver's
/// hook, with the addresses and ports of the client's direction. An IPv6 address counts as 0. Takes no memory.
#[tactic(auto, unfolding(crate::specs::Raises::timer_raise))]
pub fn raised_by_silence(client: Endpoint, server: Endpoint, members: u64) -> Raised
    ensures raises { raises_of result ≡ timer_raise client server members ∷ [] }
    ensures hook { result.hook ≡ Hook.Rcv }
    ensures facts { result.facts ≡ timer_facts client server members }
{
    let mut events = EventList::new();
    events.add_if(true, TIMER);
    Raised {
        hook: Hook::Rcv,
        facts: timer_facts(client, server, members),
        events,
    }
}

/// The raises of `raised_at_sender`, one by one. Takes no memory.
pub fn phase_s(h: &Head, from: Side, nth: u64, first: bool, s: &Sent) -> RaiseList
    ensures { result ≡ sender_raises h.now from nth first s.now }
{
    raised_at_sender(h, from, nth, first, s).to_list()
}

/// The raises of `raised_at_receiver`, one by one. Takes no memory.
pub fn phase_r(h: &Head, from: Side, nth: u64, g: &Got) -> RaiseList
    ensures { result ≡ receiver_raises h.now from nth g.now }
{
    raised_at_receiver(h, from, nth, g).to_list()
}

/// The one raise of `raised_by_orphan`. Takes no memory.
pub fn orphan_raise(class: Class, h: Option<&Head>) -> RaiseList
    ensures { result ≡ orphan_raises class (option_copied h.entry) }
{
    raised_by_orphan(class, h).to_list()
}
