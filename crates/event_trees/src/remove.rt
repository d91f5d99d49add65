//! A copy of a tree with one registration less, and without the nodes that nothing needs any more.

ghost use Rattle.std.specs.Prelude.{◌≡◌, ◌≤◌, ◌<◌, ◌+◌, ◌-◌, ◌++◌, [], length, take, drop, if◌then◌else◌, slice_index_or, IsTrue, IfOk, OnOk};
ghost use Rattle.event_trees.specs.Canon.{IsCanonOf};
ghost use Rattle.event_trees.specs.ReadOff.{placed_in, IsListed};
ghost use Rattle.event_trees.specs.Edit.{has_placed, without_placed};
ghost use Rattle.event_trees.specs.Remove.{IsPlaceOf, IsOwner, IsBareFrom, IsKeep, no_node, lowered, moved_back, uncounted, kept_nodes as kept_of, without_nodes};

use shared_forest::{Node, Slot, Tree};
use std::alloc::{AllocError, Global};

// Where the registration with a number stands; behind them all, where there is none.
fn place_of(slots: &[Slot], number: u8) -> usize
    ensures { IsPlaceOf number slots.now result }
{
    for i in 0..slots.len() {
        if slots[i].number == number {
            return i;
        }
    }
    slots.len()
}

// The node whose registrations have a place.
fn owner_of(tree: &Tree, place: usize) -> usize
    requires { place < length tree.now.slots }
    ensures { IsOwner tree.now.nodes place result }
{
    let nodes = tree.nodes();
    for i in 0..nodes.len() {
        if place < nodes[i].first as usize + nodes[i].count as usize {
            return i;
        }
    }
    0
}

// Where the nodes begin that nothing needs once the last of so many has no registration: each has no registrations,
// and the others of them under it, and no more. The top node stays.
fn first_bare(nodes: &[Node], end: usize) -> usize
    requires low { 2 ≤ end }
    requires within { end ≤ length nodes.now }
    requires count { (slice_index_or nodes.now (end - 1) no_node).count ≡ 1 }
    requires below { (slice_index_or nodes.now (end - 1) no_node).below ≡ 0 }
    ensures { IsBareFrom nodes.now end result }
{
    let mut keep = end - 1;
    while keep > 1 {
        let node = nodes[keep - 1];
        if node.count > 0 || node.below as usize != end - keep {
            return keep;
        }
        keep -= 1;
    }
    keep
}

// How many nodes stay before those that go, once the last of so many has one registration less.
fn kept_before(nodes: &[Node], end: usize) -> usize
    requires low { 1 ≤ end }
    requires within { end ≤ length nodes.now }
    requires some { 1 ≤ (slice_index_or nodes.now (end - 1) no_node).count }
    ensures { IsKeep nodes.now end result }
{
    let last = nodes[end - 1];
    if end == 1 || last.count > 1 || last.below > 0 {
        return end;
    }
    first_bare(nodes, end)
}

// Adds nodes before a place from which so many go.
fn push_lowered(out: &mut Vec<Node>, nodes: &[Node], less: u32) -> Result<(), AllocError>
    ensures { OnOk result (out.new.items ≡ out.old.items ++ lowered less nodes.now) }
{
    for i in 0..nodes.len() {
        let node = nodes[i];
        let below = if nodes.len() - i - 1 < node.below as usize {
            node.below.saturating_sub(less)
        } else {
            node.below
        };
        out.push(Node { below, ..node })?;
    }
    Ok(())
}

// Adds nodes whose registrations stand one place earlier.
fn push_moved_back(out: &mut Vec<Node>, nodes: &[Node]) -> Result<(), AllocError>
    ensures { OnOk result (out.new.items ≡ out.old.items ++ moved_back nodes.now) }
{
    for node in nodes {
        out.push(Node {
            first: node.first.saturating_sub(1),
            ..*node
        })?;
    }
    Ok(())
}

// Takes one registration from the last node.
fn uncount_last(nodes: &mut [Node])
    requires { 0 < length nodes.old }
    ensures { nodes.new ≡ uncounted nodes.old }
{
    let last = nodes.len() - 1;
    nodes[last].count = nodes[last].count.saturating_sub(1);
}

// The nodes that go: of so many up to `end`, those from `keep` on.
#[derive(Clone, Copy, Debug)]
struct Cut {
    keep: usize,
    end: usize,
    ghost low: { 1 ≤ end },
    ghost high: { keep ≤ end },
}

// The nodes that stay of those up to the registration's.
fn kept_nodes(alloc: Global, nodes: &[Node], cut: Cut) -> Result<Vec<Node>, AllocError>
    requires within { cut.end ≤ length nodes.now }
    requires few { length nodes.now < 65536 }
    ensures { IfOk result (λ kept. kept.items ≡ kept_of cut.keep cut.end nodes.now) }
{
    let Cut { keep, end } = cut;
    let mut kept = Vec::with_capacity(alloc, nodes.len())?;
    if keep < end {
        push_lowered(&mut kept, &nodes[..keep], (end - keep) as u32)?;
        return Ok(kept);
    }
    kept.extend_from_slice(&nodes[..end])?;
    uncount_last(&mut kept);
    Ok(kept)
}

// The nodes without one registration of the last of so many, and without those that nothing needs.
fn nodes_without(alloc: Global, nodes: &[Node], cut: Cut) -> Result<Vec<Node>, AllocError>
    requires within { cut.end ≤ length nodes.now }
    requires few { length nodes.now < 65536 }
    ensures { IfOk result (λ fewer. fewer.items ≡ without_nodes cut.keep cut.end nodes.now) }
{
    let mut fewer = kept_nodes(alloc, nodes, cut)?;
    push_moved_back(&mut fewer, &nodes[cut.end..])?;
    Ok(fewer)
}

// The registrations without that at a place.
fn slots_without(alloc: Global, slots: &[Slot], place: usize) -> Result<Vec<Slot>, AllocError>
    requires { place < length slots.now }
    ensures { IfOk result (λ fewer. fewer.items ≡ take place slots.now ++ drop (place + 1) slots.now) }
{
    let mut fewer = Vec::with_capacity(alloc, slots.len())?;
    fewer.extend_from_slice(&slots[..place])?;
    fewer.extend_from_slice(&slots[place + 1..])?;
    Ok(fewer)
}

/// A copy of a tree with one registration less.
pub(crate) fn tree_without(alloc: Global, tree: &Tree, number: u8) -> Result<Tree, AllocError>
    requires listed { IsListed tree.now }
    requires there { IsTrue (has_placed number (placed_in tree.now)) }
    ensures { IfOk result (IsCanonOf (without_placed number (placed_in tree.now))) }
{
    let nodes = tree.nodes();
    let slots = tree.slots();
    let place = place_of(slots, number);
    let end = owner_of(tree, place) + 1;
    let keep = kept_before(nodes, end);
    let fewer = nodes_without(alloc, nodes, Cut { keep, end })?;
    let rest = slots_without(alloc, slots, place)?;
    Ok(Tree::new(fewer, rest))
}
