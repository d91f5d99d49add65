//! What callers may rest on. These functions do nothing.

ghost use Rattle.std.specs.Prelude.{◌≡◌, ℕ, Option, List};
ghost use Rattle.app_api.specs.declared.registration.Reg.{Reg};
ghost use Rattle.shared_forest.specs.Lists.{TreeLists};
ghost use Rattle.event_trees.specs.declared.defs.EventDef.{EventDef};
ghost use Rattle.event_trees.specs.Later.{IsEarlier};
ghost use Rattle.forest_versions.specs.State.{ControlState, active as first_active};
ghost use Rattle.connection_core.specs.InForce.{IsInForce};
ghost use Rattle.connection_core.specs.Trees.{active_in, list_in_force, AnswersAs, IsForestIn, IsForestInForce, IsFirstForest};
ghost use Rattle.connection_core.specs.Laws.{CallsWhatFires};

use crate::in_force::InForce;
use event_trees::{Defs, later_events_change_nothing, slots_in_order};
use shared_forest::Tree;

/// The callbacks of a raise are those registrations of the private list that fire: those with the raise's hook and root
/// whose filters on the whole path are true, by path and then by number. The private list is that of the raise's
/// beginning, and a phase's next raise begins where this one ended, with its changes made.
pub fn callbacks_are_those_that_fire()
    ensures { CallsWhatFires }
{}

/// The tree of the registrations that are on at a connection's start names them.
pub fn first_tree_names_the_first_list(in_force: &InForce, tree: &Tree)
    ensures list { (s : ControlState) → IsInForce in_force.now s → IsFirstForest in_force.now s tree.now
        → list_in_force in_force.now tree.now ≡ first_active s }
    ensures forest { (s : ControlState) → IsInForce in_force.now s → IsFirstForest in_force.now s tree.now
        → IsForestInForce in_force.now tree.now }
{
    slots_in_order(tree);
}

/// A tree stays that of its private list where events are defined later, and registrations are looked up as before.
pub fn trees_stay(defs: &Defs)
    ensures forest { (earlier : List EventDef) (at now : ℕ → Option Reg) (tree : TreeLists)
        → IsEarlier earlier defs.now → AnswersAs at now → IsForestIn earlier at tree → IsForestIn defs.now now tree }
    ensures list { (earlier : List EventDef) (at now : ℕ → Option Reg) (tree : TreeLists)
        → AnswersAs at now → IsForestIn earlier at tree → active_in now tree ≡ active_in at tree }
{
    later_events_change_nothing(defs);
}
