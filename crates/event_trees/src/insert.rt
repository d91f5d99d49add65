//! A copy of a tree with one registration more, and the nodes of its path that weren't there.

ghost use Rattle.std.specs.Prelude.{◌≡◌, ◌≤◌, ◌<◌, ◌+◌, ◌-◌, ◌^◌, ◌++◌, ◌∷◌, length, take, drop, map, if◌then◌else◌, nat_le, ◌&&◌, false, IfOk, OnOk, IfSome, IfNone};
ghost use Rattle.std.specs.List.{All};
ghost use Rattle.std.specs.List.Sorted.{IsStrictlySortedBy};
ghost use Rattle.std.specs.declared.cmp.Ordering.TheVariants.{Less};
ghost use Rattle.std.specs.Ordering.{is_gt};
ghost use Rattle.shared_forest.specs.Layout.{IsTree};
ghost use Rattle.shared_forest.specs.Listing.{path_after};
ghost use Rattle.event_trees.specs.EventPath.{path_of};
ghost use Rattle.event_trees.specs.Private.{path_cmp};
ghost use Rattle.event_trees.specs.Canon.{IsCanonOf};
ghost use Rattle.event_trees.specs.Build.{seen, common};
ghost use Rattle.event_trees.specs.ReadOff.{placed_in, IsListed};
ghost use Rattle.event_trees.specs.Edit.{placed_cmp, put_placed};
ghost use Rattle.event_trees.specs.Insert.{AfterReached, IsReach, IsBetween, IsSpot, IsUpTo, chain, raised, raised_by, moved, with_path};

use crate::nodes::count_last;
use crate::placed::PlacedReg;
use shared_forest::{Node, Slot, Tree};
use std::alloc::{AllocError, Global};

// How far a path leads in a tree: how many nodes have paths that are no later, and how many events the path has in
// common with the last of them at the beginning.
#[derive(Clone, Copy, Debug)]
struct Reach {
    node: usize,
    depth: usize,
}

// How many events a path has in common with the path of the next node; none where that is later. `depth` is how many
// it has in common with the path before.
fn next_depth(node: Node, path: &[u16], depth: usize) -> Option<usize>
    requires low { 1 ≤ node.depth }
    requires within { depth ≤ length path.now }
    ensures some { IfSome result (λ d. AfterReached path.now depth (λ before. node.depth ≤ length before + 1
        → IsUpTo (path_after before node) path.now × (d ≡ common (path_after before node) path.now))) }
    ensures none { IfNone result (AfterReached path.now depth (λ before.
        path_cmp path.now (path_after before node) ≡ Less)) }
{
    let above = node.depth as usize - 1;
    if above > depth {
        return Some(depth);
    }
    if above == path.len() {
        return None;
    }
    let event = path[above];
    if event < node.event {
        return None;
    }
    if event == node.event {
        return Some(above + 1);
    }
    Some(above)
}

// How far a path leads in a tree.
fn reach_of(tree: &Tree, path: &[u16]) -> Reach
    ensures { IsReach tree.now.nodes path.now result.node result.depth }
{
    let nodes = tree.nodes();
    let mut depth = 0;
    for i in 1..nodes.len() {
        match next_depth(nodes[i], path, depth) {
            Some(next) => depth = next,
            None => return Reach { node: i, depth },
        }
    }
    Reach {
        node: nodes.len(),
        depth,
    }
}

// How many registrations at the front have numbers that are no greater.
fn count_ahead(slots: &[Slot], number: u8) -> usize
    ensures { IsBetween number slots.now result }
{
    for i in 0..slots.len() {
        if number < slots[i].number {
            return i;
        }
    }
    slots.len()
}

// Where a registration comes in: at the node of its path, or behind the registrations of the nodes before a new one.
fn slot_place(slots: &[Slot], node: Node, is_new: bool, number: u8) -> usize
    requires { node.first + node.count ≤ length slots.now }
    ensures { IsSpot number is_new node slots.now result }
{
    let first = node.first as usize;
    let end = first + node.count as usize;
    if is_new {
        return end;
    }
    first + count_ahead(&slots[first..end], number)
}

// A node with so many nodes more under it, where it reaches up to a place so many nodes behind it and is no deeper.
fn raised_node(node: Node, behind: usize, depth: usize, more: u32) -> Node
    requires { node.below + more < 2 ^ 32 }
    ensures { result ≡ raised_by depth more behind node }
{
    let below = if behind <= node.below as usize && node.depth as usize <= depth {
        node.below + more
    } else {
        node.below
    };
    Node { below, ..node }
}

// Adds nodes before a place at which so many come in under a node of this depth.
fn push_raised(
    out: &mut Vec<Node>,
    nodes: &[Node],
    depth: usize,
    more: u32,
) -> Result<(), AllocError>
    requires { All (λ n. n.below + more < 2 ^ 32) nodes.now }
    ensures { OnOk result (out.new.items ≡ out.old.items ++ raised depth more nodes.now) }
{
    for i in 0..nodes.len() {
        out.push(raised_node(nodes[i], nodes.len() - i - 1, depth, more))?;
    }
    Ok(())
}

// Adds the nodes of a path from a depth on, one under the other.
fn push_chain(out: &mut Vec<Node>, path: &[u16], from: usize, first: u32) -> Result<(), AllocError>
    requires { length path.now ≤ 8 }
    ensures { OnOk result (out.new.items ≡ out.old.items ++ chain first from (drop from path.now)) }
{
    for depth in from..path.len() {
        out.push(Node {
            event: path[depth],
            depth: depth as u8 + 1,
            below: (path.len() - depth - 1) as u32,
            first,
            count: 0,
        })?;
    }
    Ok(())
}

// Adds nodes whose registrations stand one place later.
fn push_moved(out: &mut Vec<Node>, nodes: &[Node]) -> Result<(), AllocError>
    requires { All (λ n. n.first + 1 < 2 ^ 32) nodes.now }
    ensures { OnOk result (out.new.items ≡ out.old.items ++ moved nodes.now) }
{
    for node in nodes {
        out.push(Node {
            first: node.first + 1,
            ..*node
        })?;
    }
    Ok(())
}

// The registrations with one more.
fn slots_with(
    alloc: Global,
    slots: &[Slot],
    place: usize,
    slot: Slot,
) -> Result<Vec<Slot>, AllocError>
    requires { place ≤ length slots.now }
    ensures { IfOk result (λ more. more.items ≡ take place slots.now ++ slot ∷ drop place slots.now) }
{
    let mut more = Vec::with_capacity(alloc, slots.len() + 1)?;
    more.extend_from_slice(&slots[..place])?;
    more.push(slot)?;
    more.extend_from_slice(&slots[place..])?;
    Ok(more)
}

// The nodes with those of a path that weren't there, and one registration more at the path's last node.
fn nodes_with(
    alloc: Global,
    nodes: &[Node],
    reach: Reach,
    first: u32,
    path: &[u16],
) -> Result<Vec<Node>, AllocError>
    requires low { 1 ≤ reach.node }
    requires within { reach.node ≤ length nodes.now }
    requires depth { reach.depth ≤ length path.now }
    requires short { length path.now ≤ 8 }
    requires raise { All (λ n. n.below + 8 < 2 ^ 32) nodes.now }
    requires room { All (λ n. n.count < 255) nodes.now }
    requires firsts { All (λ n. n.first + 1 < 2 ^ 32) nodes.now }
    ensures { IfOk result (λ more. more.items ≡ with_path reach.node reach.depth first path.now nodes.now) }
{
    let mut more = Vec::with_capacity(alloc, nodes.len() + 8)?;
    let new = (path.len() - reach.depth) as u32;
    push_raised(&mut more, &nodes[..reach.node], reach.depth, new)?;
    push_chain(&mut more, path, reach.depth, first)?;
    count_last(&mut more);
    push_moved(&mut more, &nodes[reach.node..])?;
    Ok(more)
}

/// A copy of a tree with one registration more.
pub(crate) fn tree_with(alloc: Global, tree: &Tree, reg: &PlacedReg) -> Result<Tree, AllocError>
    requires listed { IsListed tree.now }
    requires order { IsStrictlySortedBy placed_cmp (put_placed (seen reg.now) (placed_in tree.now)) }
    requires few { length (placed_in tree.now) < 255 }
    ensures { IfOk result (IsCanonOf (put_placed (seen reg.now) (placed_in tree.now))) }
{
    let nodes = tree.nodes();
    let slots = tree.slots();
    let path = reg.path.events();
    let reach = reach_of(tree, path);
    let last = nodes[reach.node - 1];
    let is_new = reach.depth < path.len();
    let place = slot_place(slots, last, is_new, reg.slot.number);
    let first = last.first + last.count as u32;
    let more = nodes_with(alloc, nodes, reach, first, path)?;
    let all = slots_with(alloc, slots, place, reg.slot)?;
    Ok(Tree::new(more, all))
}
