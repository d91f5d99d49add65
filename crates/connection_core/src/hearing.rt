//! Raises that nobody hears: they call nothing, so no walk begins for them, and for a phase of such raises there are no
//! facts.

ghost use Rattle.std.specs.Prelude.{◌≡◌, [], ◌∷◌, false, ℕ, IfSome, IsTrue};
ghost use Rattle.native_filters.specs.declared.facts.Facts.{Facts};
ghost use Rattle.native_filters.specs.declared.facts.Hook.{Hook as HookOf};
ghost use Rattle.packet_views.specs.declared.packet.Head.{Head as HeadOf};
ghost use Rattle.tcp_emulation.specs.declared.segment.Side.{Side};
ghost use Rattle.builtin_events.specs.Raises.{sender_raises, receiver_raises};
ghost use Rattle.shared_forest.specs.Listing.{listing};
ghost use Rattle.app_api.specs.declared.hearers.Hearers.{Hearers};
ghost use Rattle.shared_forest.specs.Heard.{hearers_of, is_heard};
ghost use Rattle.event_trees.specs.Defs.{is_root};
ghost use Rattle.event_trees.specs.Fires.{fires};
ghost use Rattle.event_trees.specs.Private.{numbers_of};
ghost use Rattle.forest_versions.specs.State.{ControlState};
ghost use Rattle.connection_core.specs.InForce.{IsInForce};
ghost use Rattle.connection_core.specs.Trees.{list_in_force, IsForestInForce};
ghost use Rattle.connection_core.specs.Unheard.{CallsNothing, CallNothing, CallsOne, PacketsCallOne};

use crate::in_force::InForce;
use app_api::{Hearers, is_built_in};
use builtin_events::{is_heard_at_receiver, is_heard_at_sender};
use event_trees::{heard_where_registered, later_events_change_nothing, one_hearer_is_called};
use flow_socket::{Got, Sent};
use native_filters::Hook;
use packet_views::Head;
use shared_forest::Tree;

// Over the tree of a private list, what isn't heard calls nothing, and where one registration alone hears a root's event, its
// raise calls that one. It does nothing.
fn raises_call_who_hears(in_force: &InForce, tree: &Tree)
    requires forest { IsForestInForce in_force.now tree.now }
    ensures nobody { (s : ControlState) (hook : HookOf) (event : ℕ) → IsInForce in_force.now s
        → is_heard hook event (listing tree.now) ≡ false
        → (facts : Facts) → fires s.defs facts hook event (list_in_force in_force.now tree.now) ≡ [] }
    ensures one { (s : ControlState) (hook : HookOf) (event : ℕ) (number : ℕ) → IsInForce in_force.now s
        → IsTrue (is_root event) → hearers_of hook event (listing tree.now) ≡ Hearers.One number
        → (facts : Facts) → numbers_of (fires s.defs facts hook event (list_in_force in_force.now tree.now)) ≡ number ∷ [] }
{
    heard_where_registered(tree);
    one_hearer_is_called(tree);
    later_events_change_nothing(in_force.defs());
}

/// Who hears the raise of an event.
#[inline(always)]
pub(crate) fn hearers(in_force: &InForce, tree: &Tree, hook: Hook, event: u16) -> Hearers
    requires forest { IsForestInForce in_force.now tree.now }
    ensures nobody { result ≡ Hearers.Nobody → (s : ControlState) (facts : Facts) → IsInForce in_force.now s
        → CallsNothing s (list_in_force in_force.now tree.now) (record { hook = hook; event = event; facts = facts }) }
    ensures one { (number : ℕ) → result ≡ Hearers.One number → (s : ControlState) (facts : Facts)
        → IsInForce in_force.now s → CallsOne s (list_in_force in_force.now tree.now) (record { hook = hook; event = event; facts = facts }) number }
{
    raises_call_who_hears(in_force, tree);
    if !is_built_in(event) {
        return Hearers::More;
    }
    tree.heard(hook).get(event)
}

/// The number of the registration that packets call alone at a hook, where there is one.
#[inline(always)]
pub(crate) fn lone_hearer(in_force: &InForce, tree: &Tree, hook: Hook) -> Option<u8>
    requires forest { IsForestInForce in_force.now tree.now }
    ensures { IfSome result (λ number. (s : ControlState) → IsInForce in_force.now s
        → PacketsCallOne s (list_in_force in_force.now tree.now) hook number) }
{
    raises_call_who_hears(in_force, tree);
    tree.lone(hook)
}

/// Whether any raise of a packet's phase at its sender is heard.
#[inline(always)]
pub(crate) fn hears_sender(in_force: &InForce, tree: &Tree, first: bool, sent: &Sent) -> bool
    requires forest { IsForestInForce in_force.now tree.now }
    ensures { result ≡ false → (s : ControlState) (h : HeadOf) (from : Side) (nth : ℕ)
        → IsInForce in_force.now s → CallNothing s (list_in_force in_force.now tree.now) (sender_raises h from nth first sent.now) }
{
    raises_call_who_hears(in_force, tree);
    is_heard_at_sender(tree.heard(Hook::Snd), first, sent)
}

/// Whether any raise of its phase at its receiver is heard.
#[inline(always)]
pub(crate) fn hears_receiver(in_force: &InForce, tree: &Tree, head: &Head, got: &Got) -> bool
    requires forest { IsForestInForce in_force.now tree.now }
    ensures { result ≡ false → (s : ControlState) (from : Side) (nth : ℕ) → IsInForce in_force.now s
        → CallNothing s (list_in_force in_force.now tree.now) (receiver_raises head.now from nth got.now) }
{
    raises_call_who_hears(in_force, tree);
    is_heard_at_receiver(tree.heard(Hook::Rcv), head, got)
}
