//! The walk over a tree, which gives the registrations that fire.

ghost use Rattle.std.specs.Prelude.{◌≡◌, ◌+◌, ◌≤◌, ◌<◌, ◌++◌, [], ◌∷◌, length, drop, List, IfSome, IfNone, Contains};
ghost use Rattle.shared_forest.specs.declared.node.Slot.{Slot as SlotOf};
ghost use Rattle.native_filters.specs.declared.facts.Hook.{Hook as HookOf};
ghost use Rattle.shared_forest.specs.Listing.{slots_of};
ghost use Rattle.event_trees.specs.Walk.{keeps, called, walked};
ghost use Rattle.event_trees.specs.Place.{come, passed_by};
ghost use Rattle.std.specs.Option.{option_to_list};

use crate::defs::Defs;
use crate::place::{Place, next_called};
use filter_lang::eval;
use native_filters::{Facts, Hook, NativeBook};
use shared_forest::{Node, Tree};
use std::marker::Model;

/// What is asked at each node: a filter of the definitions, or whether it is the raise's event.
#[derive(Clone, Copy)]
struct Question<'a> {
    defs: &'a Defs,
    natives: &'a NativeBook,
    facts: &'a Facts,
    root: u16,
}

impl Question<'_> {
    // Whether the raise passes a node with this event.
    fn keeps(&self, event: u16) -> bool
        ensures { result ≡ passed_by self.now event }
    {
        match self.defs.find(event) {
            Some(d) => eval(&d.filter, self.facts, self.natives),
            None => event == self.root,
        }
    }

    // The next node that passes, and the place after it. What stands under a node that doesn't pass is left out.
    fn next_kept(&self, nodes: &[Node], from: usize) -> Option<(Node, usize)>
        ensures some { IfSome result (λ r. (hook : HookOf) (slots : List SlotOf) →
            walked (passed_by self.now) hook 0 (drop from nodes.now) slots
            ≡ called hook (slots_of r.0 slots) ++ walked (passed_by self.now) hook 0 (drop r.1 nodes.now) slots) }
        ensures none { IfNone result ((hook : HookOf) (slots : List SlotOf) →
            walked (passed_by self.now) hook 0 (drop from nodes.now) slots ≡ []) }
        ensures node { IfSome result (λ r. Contains nodes.now r.0) }
        ensures after { IfSome result (λ r. (from < r.1) × (r.1 ≤ length nodes.now)) }
    {
        let mut i = from;
        while i < nodes.len() {
            let node = nodes[i];
            if self.keeps(node.event) {
                return Some((node, i + 1));
            }
            i += 1 + node.below as usize;
        }
        None
    }
}

// The next registration that fires from a place on, and the place after it.
fn next_called_in(tree: &Tree, hook: Hook, question: &Question, from: Place) -> Option<(u8, Place)>
    requires { from.end ≤ length tree.now.slots }
    ensures some { IfSome result (λ r.
        come (passed_by question.now) hook tree.now from ≡ r.0 ∷ come (passed_by question.now) hook tree.now r.1) }
    ensures none { IfNone result (come (passed_by question.now) hook tree.now from ≡ []) }
    ensures within { IfSome result (λ r. r.1.end ≤ length tree.now.slots) }
{
    let nodes = tree.nodes();
    let slots = tree.slots();
    let mut place = from;
    loop {
        if let Some((number, slot)) = next_called(&slots[..place.end], hook, place.slot) {
            return Some((number, Place { slot, ..place }));
        }
        let (node, after) = question.next_kept(nodes, place.node)?;
        place = Place::of(node, after);
    }
}

/// A walk over a tree for one raise.
#[derive(Drop)]
pub struct Walk<'a> {
    tree: &'a Tree,
    hook: Hook,
    root: u16,
    facts: &'a Facts,
    place: Place,
}

impl<'a> Model for Walk<'a> {
    ghost use Rattle.std.specs.Prelude.{◌≤◌, length, drop};
    ghost use Rattle.event_trees.specs.Walk.{Walking};
    ghost use Rattle.event_trees.specs.Place.{pending_at};

    ghost Value = { Walking };

    ghost view = { λ w. record {
      hook = w.hook;
      root = w.root;
      facts = w.facts.now;
      pending = pending_at w.tree.now.slots w.place;
      rest = drop w.place.node w.tree.now.nodes;
      slots = w.tree.now.slots;
    } };

    ghost invariant = { λ w. w.place.end ≤ length w.tree.now.slots };
}

impl<'a> Walk<'a> {
    ghost use Rattle.event_trees.specs.declared.defs.EventDef.{EventDef};
    ghost use Rattle.shared_forest.specs.Listing.{listing};
    ghost use Rattle.app_api.specs.declared.registration.Reg.{Reg};
    ghost use Rattle.event_trees.specs.Defs.{AreDefs};
    ghost use Rattle.event_trees.specs.Private.{IsPrivate, numbers_of};
    ghost use Rattle.event_trees.specs.Canon.{canon};
    ghost use Rattle.event_trees.specs.Fires.{fires};
    ghost use Rattle.event_trees.specs.Walk.{firing, to_come};

    /// Begins a walk for a raise of a built-in event.
    pub fn start(tree: &'a Tree, hook: Hook, event: u16, facts: &'a Facts) -> Walk<'a>
        // Over the tree of a private list: what a check of each registration alone gives, from its root on.
        ensures fires { (defs : List EventDef) (list : List Reg) → AreDefs defs → IsPrivate defs list
            → listing tree.now ≡ canon defs list
            → to_come defs result ≡ numbers_of (fires defs facts.now hook event list) }

        // Over any tree: what its listing gives, each path asked from its root on.
        ensures listed { (defs : List EventDef)
            → to_come defs result ≡ firing (keeps defs facts.now event) hook (listing tree.now) }
    {
        Walk {
            tree,
            hook,
            root: event,
            facts,
            place: Place::of(tree.nodes()[0], 1),
        }
    }

    /// The number of the next registration that fires. None exactly at their end.
    pub fn next(&mut self, defs: &Defs, natives: &NativeBook) -> Option<u8>
        ensures given { to_come defs.now self.old ≡ option_to_list result ++ to_come defs.now self.new }
        ensures end { IfNone result (to_come defs.now self.old ≡ []) }
    {
        let question = Question {
            defs,
            natives,
            facts: self.facts,
            root: self.root,
        };
        let (number, place) = next_called_in(self.tree, self.hook, &question, self.place)?;
        self.place = place;
        Some(number)
    }
}
