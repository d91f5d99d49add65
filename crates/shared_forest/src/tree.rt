//! A tree, as two flat lists.

ghost use Rattle.std.specs.Prelude.{◌≡◌, ◌↔◌, false, IfSome, IsTrue};

use crate::heard::heard_at;
use crate::node::{are_same_nodes, are_same_slots};
use crate::{Node, Slot};
use app_api::Heard;
use native_filters::Hook;
use std::marker::Model;

/// An event tree: one list of nodes and one list of registrations. Contracts see the two lists.
///
/// The first node is the top node, with event 0 and depth 0. Each other node stands at most one deeper than the
/// node before it, and is followed by the nodes under it. Siblings stand by rising event. The registrations stand in
/// the order of their nodes, those of one node by rising number, and there are no others.
#[derive(Debug, Drop)]
pub struct Tree {
    nodes: Vec<Node>,
    slots: Vec<Slot>,

    // Who hears at each hook. Both follow from the lists, so that equal lists are equal trees.
    at_sender: Heard,
    at_receiver: Heard,

    // The number of the registration that alone hears packets at each hook, where there is one.
    lone_at_sender: Option<u8>,
    lone_at_receiver: Option<u8>,
}

impl Model for Tree {
    ghost use Rattle.shared_forest.specs.Lists.{TreeLists};

    ghost Value = { TreeLists };

    ghost use Rattle.native_filters.specs.declared.facts.Hook.TheVariants.{Snd, Rcv};
    ghost use Rattle.shared_forest.specs.Layout.{IsTree};
    ghost use Rattle.shared_forest.specs.Listing.{listing_of};
    ghost use Rattle.shared_forest.specs.Heard.{AreHeard, IsLone};
    ghost use Rattle.std.specs.Prelude.{IfSome};

    ghost view = { λ t. record { nodes = t.nodes.items; slots = t.slots.items } };

    ghost invariant = { λ t. IsTree t.nodes.items t.slots.items
        × AreHeard Snd t.at_sender (listing_of t.nodes.items t.slots.items)
        × AreHeard Rcv t.at_receiver (listing_of t.nodes.items t.slots.items)
        × IfSome t.lone_at_sender (λ number. IsLone Snd number (listing_of t.nodes.items t.slots.items))
        × IfSome t.lone_at_receiver (λ number. IsLone Rcv number (listing_of t.nodes.items t.slots.items)) };
}

impl Tree {
    ghost use Rattle.shared_forest.specs.Layout.{IsTree};
    ghost use Rattle.shared_forest.specs.Listing.{listing};
    ghost use Rattle.app_api.specs.Events.{is_built_in};
    ghost use Rattle.shared_forest.specs.Heard.{is_heard, AreHeard, IsLone};

    /// The tree of these two lists.
    pub fn new(nodes: Vec<Node>, slots: Vec<Slot>) -> Tree
        requires { IsTree nodes.items slots.items }
        ensures nodes { result.nodes ≡ nodes.items }
        ensures slots { result.slots ≡ slots.items }
    {
        let at_sender = heard_at(&nodes, &slots, Hook::Snd);
        let at_receiver = heard_at(&nodes, &slots, Hook::Rcv);
        let lone_at_sender = at_sender.lone();
        let lone_at_receiver = at_receiver.lone();
        Tree {
            nodes,
            slots,
            at_sender,
            at_receiver,
            lone_at_sender,
            lone_at_receiver,
        }
    }

    /// The nodes, the top node first.
    pub fn nodes(&self) -> &[Node]
        ensures nodes { result.now ≡ self.now.nodes }
        ensures tree { IsTree self.now.nodes self.now.slots }
    {
        &self.nodes
    }

    /// The registrations, in the order of their nodes.
    pub fn slots(&self) -> &[Slot]
        ensures slots { result.now ≡ self.now.slots }
        ensures tree { IsTree self.now.nodes self.now.slots }
    {
        &self.slots
    }

    /// Who hears each of the built-in events at a hook: of the registrations on paths that begin with the event, those
    /// that have the hook.
    #[inline(always)]
    pub fn heard(&self, hook: Hook) -> &Heard
        ensures { AreHeard hook result.now (listing self.now) }
    {
        match hook {
            Hook::Snd => &self.at_sender,
            Hook::Rcv => &self.at_receiver,
        }
    }

    /// The number of the registration that alone hears packets at a hook, where there is one.
    #[inline(always)]
    pub fn lone(&self, hook: Hook) -> Option<u8>
        ensures { IfSome result (λ number. IsLone hook number (listing self.now)) }
    {
        match hook {
            Hook::Snd => self.lone_at_sender,
            Hook::Rcv => self.lone_at_receiver,
        }
    }

    /// Whether an event is heard at a hook. Of a number that isn't a built-in event it always says so.
    pub fn is_heard(&self, hook: Hook, event: u16) -> bool
        ensures heard { IsTrue (is_built_in event) → result ≡ is_heard hook event (listing self.now) }
        ensures unheard { result ≡ false → is_heard hook event (listing self.now) ≡ false }
    {
        self.heard(hook).is_heard(event)
    }

    /// Whether both are the same tree, list by list.
    pub fn is_same(&self, other: &Tree) -> bool
        ensures { IsTrue result ↔ (self.now ≡ other.now) }
    {
        are_same_nodes(&self.nodes, &other.nodes) && are_same_slots(&self.slots, &other.slots)
    }

    /// Trees of one listing are equal.
    pub fn one_listing(&self, other: &Tree)
        ensures { listing self.now ≡ listing other.now → self.now ≡ other.now }
    {
        let _nodes = self.nodes();
        let _others = other.nodes();
    }
}
