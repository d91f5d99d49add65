//! Whether anything is heard of what a packet raises, which is known before there are facts.

ghost use Rattle.std.specs.Prelude.{◌≡◌, ◌==◌, not, nat_lt, ℕ, [], ◌∷◌};
ghost use Rattle.packet_views.specs.declared.packet.Head.{Head as HeadOf};
ghost use Rattle.tcp_emulation.specs.declared.segment.Side.{Side};
ghost use Rattle.tcp_emulation.specs.States.{number_of};
ghost use Rattle.builtin_events.specs.Facts.{read_bytes};
ghost use Rattle.app_api.specs.Events as events;
ghost use Rattle.builtin_events.specs.Heard.{is_any_heard, hears};
ghost use Rattle.builtin_events.specs.Raises.{sender_raises, receiver_raises};

use crate::facts::read_bytes;
use app_api::Heard;
use app_api::events::{END, ERROR, NEW_DATA, PKT_IN, REXMIT, START, STATE};
use flow_socket::{Got, Sent};
use packet_views::Head;

/// Whether anything is heard of what a packet raises at its sender. `heard` tells who hears each event there.
#[tactic(auto, unfolding(crate::specs::Raises::sender_raises, crate::specs::Facts::sender_facts))]
pub fn is_heard_at_sender(heard: &Heard, first: bool, s: &Sent) -> bool
    ensures { (h : HeadOf) (from : Side) (nth : ℕ)
        → result ≡ is_any_heard heard.now (sender_raises h from nth first s.now) }
{
    heard.is_heard(PKT_IN)
        || first && heard.is_heard(START)
        || heard.is_heard(STATE) && s.change.old.number() != s.change.new.number()
}

// The same of what its payload raises at its receiver: `rexmit`, `new_data` and `error`.
fn is_payload_heard(heard: &Heard, h: &Head, g: &Got) -> bool
    ensures { result ≡ hears heard.now ((nat_lt 0 (read_bytes h.now g.now.placed.old), events.REXMIT)
        ∷ (g.now.rose, events.NEW_DATA) ∷ (not (g.now.fault == 0), events.ERROR) ∷ []) }
{
    g.rose && heard.is_heard(NEW_DATA)
        || heard.is_heard(REXMIT) && read_bytes(h, g.placed.old) > 0
        || heard.is_heard(ERROR) && g.fault != 0
}

// The same of what its state raises there: `state` and `end`.
fn is_state_heard(heard: &Heard, g: &Got) -> bool
    ensures { result ≡ hears heard.now ((not (number_of g.now.change.old == number_of g.now.change.new), events.STATE)
        ∷ (g.now.over, events.END) ∷ []) }
{
    heard.is_heard(STATE) && g.change.old.number() != g.change.new.number()
        || g.over && heard.is_heard(END)
}

/// Whether anything is heard of what a packet raises at its receiver. `heard` tells who hears each event there.
#[tactic(auto, unfolding(crate::specs::Raises::receiver_raises, crate::specs::Facts::receiver_facts))]
pub fn is_heard_at_receiver(heard: &Heard, h: &Head, g: &Got) -> bool
    ensures { (from : Side) (nth : ℕ) → result ≡ is_any_heard heard.now (receiver_raises h.now from nth g.now) }
{
    heard.is_heard(PKT_IN) || is_payload_heard(heard, h, g) || is_state_heard(heard, g)
}
