//! What a caller may rest on: laws of private lists, their trees and definitions. These functions do nothing.

ghost use Rattle.std.specs.Prelude.{◌≡◌, ◌≤◌, [], ◌∷◌, length, map, IsTrue, Bool, false, List, ℕ};
ghost use Rattle.native_filters.specs.declared.facts.Facts.{Facts};
ghost use Rattle.native_filters.specs.declared.facts.Hook.{Hook};
ghost use Rattle.app_api.specs.declared.registration.Reg.{Reg};
ghost use Rattle.shared_forest.specs.Listing.{listing};
ghost use Rattle.app_api.specs.declared.hearers.Hearers.{Hearers};
ghost use Rattle.shared_forest.specs.Heard.{hearers_of, is_heard};
ghost use Rattle.event_trees.specs.declared.defs.EventDef.{EventDef};
ghost use Rattle.event_trees.specs.Defs.{is_event, is_root, path, AreDefs};
ghost use Rattle.event_trees.specs.Private.{IsPrivate, edited, numbers_of};
ghost use Rattle.event_trees.specs.Canon.{slot_of, canon};
ghost use Rattle.event_trees.specs.Fires.{fires, hears};
ghost use Rattle.event_trees.specs.Edit.{IsTreeOf};
ghost use Rattle.event_trees.specs.Later.{IsEarlier, OfEarlierEvents, OfEarlierLists};

use crate::defs::Defs;
use shared_forest::Tree;

/// The registrations of the tree of a private list are those of the list, in its order, and at most 255.
pub fn slots_in_order(tree: &Tree)
    ensures slots { (defs : List EventDef) (list : List Reg) → IsTreeOf defs list tree.now
        → tree.now.slots ≡ map slot_of list }
    ensures few { (defs : List EventDef) (list : List Reg) → IsTreeOf defs list tree.now
        → length tree.now.slots ≤ 255 }
{
    let _nodes = tree.nodes();
}

/// In the tree of a private list an event is heard exactly where a registration of the list has the hook and stands under
/// that root. A raise that isn't heard calls nothing.
pub fn heard_where_registered(tree: &Tree)
    ensures heard { (defs : List EventDef) (list : List Reg) (hook : Hook) (event : ℕ)
        → IsTreeOf defs list tree.now → is_heard hook event (listing tree.now) ≡ hears defs hook event list }
    ensures unheard { (defs : List EventDef) (list : List Reg) (hook : Hook) (event : ℕ)
        → IsTreeOf defs list tree.now → is_heard hook event (listing tree.now) ≡ false
        → (facts : Facts) → fires defs facts hook event list ≡ [] }
{
    let _nodes = tree.nodes();
}

/// Where one registration alone hears a root's event at a hook, a raise of it calls that one, whatever the facts are;
/// where nobody does, it calls none.
pub fn one_hearer_is_called(tree: &Tree)
    ensures one { (defs : List EventDef) (list : List Reg) (hook : Hook) (event : ℕ) (number : ℕ)
        → IsTreeOf defs list tree.now → AreDefs defs → IsTrue (is_root event)
        → hearers_of hook event (listing tree.now) ≡ Hearers.One number
        → (facts : Facts) → numbers_of (fires defs facts hook event list) ≡ number ∷ [] }
    ensures nobody { (defs : List EventDef) (list : List Reg) (hook : Hook) (event : ℕ)
        → IsTreeOf defs list tree.now → hearers_of hook event (listing tree.now) ≡ Hearers.Nobody
        → (facts : Facts) → fires defs facts hook event list ≡ [] }
{
    let _nodes = tree.nodes();
}

/// For registrations of events that were there before, events that were added later change nothing.
pub fn later_events_change_nothing(defs: &Defs)
    ensures defs { (earlier : List EventDef) → IsEarlier earlier defs.now → AreDefs earlier }
    ensures events { OfEarlierEvents defs.now (λ earlier event. IsTrue (is_event defs.now event)) }
    ensures paths { OfEarlierEvents defs.now (λ earlier event. path defs.now event ≡ path earlier event) }
    ensures private { OfEarlierLists defs.now (λ earlier list. IsPrivate defs.now list) }
    ensures listing { OfEarlierLists defs.now (λ earlier list. canon defs.now list ≡ canon earlier list) }
    ensures fires { OfEarlierLists defs.now (λ earlier list. (facts : Facts) (hook : Hook) (event : ℕ)
        → fires defs.now facts hook event list ≡ fires earlier facts hook event list) }
    ensures edited { OfEarlierLists defs.now (λ earlier list. (r : Reg) (on : Bool)
        → IsTrue (is_event earlier r.event) → edited defs.now list r on ≡ edited earlier list r on) }
{
    defs.paths();
}
