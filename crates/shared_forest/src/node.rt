//! A node of a tree, and a registration at it.

ghost use Rattle.std.specs.Prelude.{◌≡◌, ◌↔◌, IsTrue};

use native_filters::Hook;

/// A registration as a tree keeps it: its number, and the hook at which it fires.
#[derive(Clone, Copy, Debug, PartialEq, Eq)]
pub struct Slot {
    /// The registration's number, 1 to 255.
    pub number: u8,
    /// The phase of a packet at which it fires.
    pub hook: Hook,
}

/// One node of a tree. The nodes stand in one list: a node, and then the nodes under it.
#[derive(Clone, Copy, Debug, PartialEq, Eq)]
pub struct Node {
    /// The event's number, 0 for the top node.
    pub event: u16,
    /// The number of events on the way from the top node to this one, itself included.
    pub depth: u8,
    /// The number of nodes under this one. They follow it in the list.
    pub below: u32,
    /// Where the node's registrations begin in the tree's list of registrations.
    pub first: u32,
    /// The number of the node's registrations.
    pub count: u8,
}

/// Whether both lists have the same nodes.
pub(crate) fn are_same_nodes(a: &[Node], b: &[Node]) -> bool
    ensures { IsTrue result ↔ (a.now ≡ b.now) }
{
    a == b
}

/// Whether both lists have the same registrations.
pub(crate) fn are_same_slots(a: &[Slot], b: &[Slot]) -> bool
    ensures { IsTrue result ↔ (a.now ≡ b.now) }
{
    a == b
}
