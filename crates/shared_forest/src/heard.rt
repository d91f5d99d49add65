//! Who hears the events of a tree's roots at a hook.

ghost use Rattle.std.specs.Prelude.{◌≡◌, ◌≤◌, ◌+◌, ◌-◌, length, take, drop, ℕ};
ghost use Rattle.app_api.specs.Hearers.{joined, deep};
ghost use Rattle.shared_forest.specs.Layout.{ArePacked, IsTree};
ghost use Rattle.shared_forest.specs.Listing.{listing_of};
ghost use Rattle.shared_forest.specs.Heard.{with_hook, AreHeard};

use crate::{Node, Slot};
use app_api::{Heard, Hearers};
use native_filters::Hook;

// Those of some registrations that have the hook.
fn with_hook(slots: &[Slot], hook: Hook) -> Hearers
    ensures { result ≡ with_hook hook slots.now }
{
    let mut all = Hearers::Nobody;
    for slot in slots {
        if slot.hook == hook {
            all = all.joined(Hearers::One(slot.number));
        }
    }
    all
}

// The same of the registrations from one place to another.
fn between(slots: &[Slot], from: usize, to: usize, hook: Hook) -> Hearers
    requires start { from ≤ to }
    requires end { to ≤ length slots.now }
    ensures { result ≡ with_hook hook (take (to - from) (drop from slots.now)) }
{
    with_hook(&slots[from..to], hook)
}

// Those of a root, whose own registrations are followed by those under it up to an end.
fn of_root(slots: &[Slot], root: Node, end: usize, hook: Hook) -> Hearers
    requires own { root.first + root.count ≤ end }
    requires end { end ≤ length slots.now }
    ensures { result ≡ joined (with_hook hook (take root.count (drop root.first slots.now)))
        (deep (with_hook hook (take (end - (root.first + root.count)) (drop (root.first + root.count) slots.now)))) }
{
    let first = root.first as usize;
    let under = first + root.count as usize;
    let own = between(slots, first, under, hook);
    own.joined(between(slots, under, end, hook).deep())
}

// Where the registrations of the nodes from a place on begin.
fn first_slot(nodes: &[Node], slots: &[Slot], at: usize) -> usize
    ensures { (place : ℕ) → ArePacked place (drop at nodes.now) (length slots.now) → result ≡ place }
{
    if at < nodes.len() {
        nodes[at].first as usize
    } else {
        slots.len()
    }
}

/// Who hears each of the built-in events at a hook. It goes from root to root.
pub(crate) fn heard_at(nodes: &[Node], slots: &[Slot], hook: Hook) -> Heard
    requires { IsTree nodes.now slots.now }
    ensures { AreHeard hook result (listing_of nodes.now slots.now) }
{
    let mut heard = Heard::nobody();
    let mut at = 1;
    while at < nodes.len() {
        let node = nodes[at];
        let next = at + 1 + node.below as usize;
        let end = first_slot(nodes, slots, next);
        let more = of_root(slots, node, end, hook);
        heard.add(node.event, more);
        at = next;
    }
    heard
}
