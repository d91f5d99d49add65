//! Places of a walk.

ghost use Rattle.std.specs.Prelude.{◌≡◌, ◌≤◌, ◌<◌, ◌+◌, [], ◌∷◌, length, IfSome, IfNone};
ghost use Rattle.event_trees.specs.Walk.{called_from};

use native_filters::Hook;
use shared_forest::{Node, Slot};

/// Where a walk stands: the rest of a node's registrations, from `slot` to before `end`, and the next node.
#[derive(Clone, Copy, Debug)]
pub(crate) struct Place {
    pub slot: usize,
    pub end: usize,
    pub node: usize,
}

impl Place {
    /// At the registrations of a node.
    pub(crate) fn of(node: Node, after: usize) -> Place
        ensures slot { result.slot ≡ node.first }
        ensures end { result.end ≡ node.first + node.count }
        ensures node { result.node ≡ after }
    {
        let slot = node.first as usize;
        Place {
            slot,
            end: slot + node.count as usize,
            node: after,
        }
    }
}

/// The next registration with the hook: its number, and the place after it.
pub(crate) fn next_called(slots: &[Slot], hook: Hook, from: usize) -> Option<(u8, usize)>
    ensures some { IfSome result (λ r. called_from hook slots.now from ≡ r.0 ∷ called_from hook slots.now r.1) }
    ensures none { IfNone result (called_from hook slots.now from ≡ []) }
    ensures after { IfSome result (λ r. r.1 ≤ length slots.now) }
{
    let mut i = from;
    while i < slots.len() {
        let slot = slots[i];
        i += 1;
        if slot.hook == hook {
            return Some((slot.number, i));
        }
    }
    None
}
