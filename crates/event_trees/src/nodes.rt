//! The nodes and registrations of a tree.

ghost use Rattle.std.specs.Prelude.{◌≡◌, ◌≤◌, ◌<◌, ◌+◌, ◌-◌, ◌^◌, ◌++◌, [], ◌∷◌, length, drop, slice_index_or, OnOk, IfOk};
ghost use Rattle.std.specs.List.Sorted.{IsStrictlySortedBy};
ghost use Rattle.shared_forest.specs.Layout.{under, IsTree};
ghost use Rattle.shared_forest.specs.Listing.{listing_of};
ghost use Rattle.event_trees.specs.Canon.{canon_of, IsCanonOf};
ghost use Rattle.event_trees.specs.Edit.{placed_cmp};
ghost use Rattle.event_trees.specs.Build.{all_seen, seen_slots, common, fresh_nodes, bumped, counted};
ghost use Rattle.event_trees.specs.Remove.{no_node};

use crate::path::EventPath;
use crate::placed::PlacedReg;
use shared_forest::{Node, Slot, Tree};
use std::alloc::{AllocError, Global};

// How many events two paths have in common at their beginnings.
fn common_len(last: &[u16], path: &[u16]) -> usize
    ensures common { result ≡ common last.now path.now }
    ensures last { result ≤ length last.now }
    ensures path { result ≤ length path.now }
{
    let shorter = last.len().min(path.len());
    for i in 0..shorter {
        if last[i] != path[i] {
            return i;
        }
    }
    shorter
}

// Adds the nodes of a path that the path of the last node doesn't have.
fn push_nodes(
    nodes: &mut Vec<Node>,
    last: &[u16],
    path: &[u16],
    first: u32,
) -> Result<(), AllocError>
    requires { length path.now ≤ 8 }
    ensures { OnOk result (nodes.new.items ≡ nodes.old.items ++ fresh_nodes first last.now path.now) }
{
    for depth in common_len(last, path)..path.len() {
        nodes.push(Node {
            event: path[depth],
            depth: depth as u8 + 1,
            below: 0,
            first,
            count: 0,
        })?;
    }
    Ok(())
}

/// Gives the last node one registration more.
pub(crate) fn count_last(nodes: &mut [Node])
    requires some { 0 < length nodes.old }
    requires room { (slice_index_or nodes.old (length nodes.old - 1) no_node).count < 255 }
    ensures { nodes.new ≡ bumped nodes.old }
{
    let last = nodes.len() - 1;
    nodes[last].count += 1;
}

// How many nodes at the front are deeper.
fn count_under(depth: u8, nodes: &[Node]) -> u32
    requires { length nodes.now < 2 ^ 32 }
    ensures { result ≡ under depth nodes.now }
{
    let mut count = 0;
    for node in nodes {
        if node.depth <= depth {
            return count;
        }
        count += 1;
    }
    count
}

// Counts the nodes under each node.
fn count_below(nodes: &mut [Node])
    requires { length nodes.old < 2 ^ 32 }
    ensures { nodes.new ≡ counted nodes.old }
{
    for i in 0..nodes.len() {
        nodes[i].below = count_under(nodes[i].depth, &nodes[i + 1..]);
    }
}

// The nodes of registrations in the order of their paths, and then of their numbers.
fn nodes_of(alloc: Global, regs: &[PlacedReg]) -> Result<Vec<Node>, AllocError>
    requires order { IsStrictlySortedBy placed_cmp (all_seen regs.now) }
    requires few { length regs.now ≤ 255 }
    ensures tree { IfOk result (λ nodes. IsTree nodes.items (seen_slots regs.now)) }
    ensures listing { IfOk result (λ nodes.
        listing_of nodes.items (seen_slots regs.now) ≡ canon_of (all_seen regs.now)) }
{
    let mut nodes = Vec::new(alloc);
    nodes.push(Node {
        event: 0,
        depth: 0,
        below: 0,
        first: 0,
        count: 0,
    })?;
    let mut last = EventPath::empty();
    for i in 0..regs.len() {
        let path = regs[i].path;
        push_nodes(&mut nodes, last.events(), path.events(), i as u32)?;
        count_last(&mut nodes);
        last = path;
    }
    count_below(&mut nodes);
    Ok(nodes)
}

// The registrations alone.
fn slots_of(alloc: Global, regs: &[PlacedReg]) -> Result<Vec<Slot>, AllocError>
    ensures { IfOk result (λ slots. slots.items ≡ seen_slots regs.now) }
{
    let mut slots = Vec::new(alloc);
    for reg in regs {
        slots.push(reg.slot)?;
    }
    Ok(slots)
}

/// The tree of registrations in the order of their paths, and then of their numbers.
pub(crate) fn tree_of(alloc: Global, regs: &[PlacedReg]) -> Result<Tree, AllocError>
    requires order { IsStrictlySortedBy placed_cmp (all_seen regs.now) }
    requires few { length regs.now ≤ 255 }
    ensures { IfOk result (IsCanonOf (all_seen regs.now)) }
{
    let nodes = nodes_of(alloc, regs)?;
    let slots = slots_of(alloc, regs)?;
    Ok(Tree::new(nodes, slots))
}
