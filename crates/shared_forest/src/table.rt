//! The store of one owner: each different tree once, in a row of its own.

ghost use Rattle.std.specs.Prelude.{◌≡◌, ◌+◌, ◌<◌, ◌≤◌, ◌^◌, ◌-◌, ◌++◌, [], ◌∷◌, min, length, IfOk, OnOk, OnErr, IsOk, ℕ, Some, slice_get, slice_index_or, Contains};
ghost use Rattle.shared_forest.specs.Lists.{TreeLists};
ghost use Rattle.shared_forest.specs.Rows.{AreDifferent};

use crate::Tree;
use crate::store::{ForestView, Forests, Shared};
use indexmap::IndexSet;
use std::alloc::{AllocError, Global};
use std::marker::Model;

/// The store of one owner: no lock, and one row for each different tree.
///
/// A tree is found by its hash, so `intern` takes time by the size of its tree, on average, however many rows there
/// are. The hash has a fixed seed: whoever picks the trees can make them collide, and then it goes through all rows.
#[derive(Debug, Drop)]
pub struct Table {
    rows: IndexSet<Tree>,
    interns: u64,
}

impl Model for Table {
    ghost use Rattle.shared_forest.specs.Rows.{TableRows};

    ghost Value = { TableRows };

    ghost view = { λ t. record { rows = t.rows.keys; interns = t.interns } };
}

impl Table {
    /// A store without a row.
    pub fn new(alloc: Global) -> Table
        ensures rows { result.rows ≡ [] }
        ensures interns { result.interns ≡ 0 }
    {
        Table {
            rows: IndexSet::new(alloc),
            interns: 0,
        }
    }

    /// The number of rows.
    pub fn rows(&self) -> usize
        ensures rows { result ≡ length self.now.rows }
        ensures different { AreDifferent self.now.rows }
    {
        self.rows.len()
    }

    /// How many calls of `intern` answered Ok so far; it stays at 2^64 - 1.
    pub fn interns(&self) -> u64
        ensures { result ≡ self.now.interns }
    {
        self.interns
    }
}

impl ForestView for Table {
    ghost use Rattle.shared_forest.specs.Rows.{HasRow, HasRow-once, tree_at};

    ghost answered = { HasRow };

    ghost answered_once = { HasRow-once };

    ghost content = { tree_at };

    ghost interns = { λ t. Some t.interns };

    fn tree_of<'a>(&'a self, s: &'a Shared) -> &'a Tree {
        &self.rows[s.row()]
    }

    fn same(&self, a: &Shared, b: &Shared) -> bool {
        a.row() == b.row()
    }
}

impl Forests for Table {
    ghost use Rattle.shared_forest.specs.Rows.{HasRow, tree_at};
    ghost use Rattle.shared_forest.specs.Store.{Keeps, CountsAtMost, row_of};

    fn intern(&mut self, _alloc: Global, tree: Tree) -> Result<Shared, AllocError>
        ensures answered { IfOk result (λ s. HasRow self.new s) }
        ensures content { IfOk result (λ s. tree_at self.new s ≡ tree) }
        ensures kept { Keeps HasRow tree_at self.old self.new }
        ensures counted { CountsAtMost (Some self.old.interns) (Some self.new.interns) }
        ensures err { OnErr result (self.new ≡ self.old) }

        // A tree that is there gets its row, and needs no memory. Another is added at the end.
        ensures held { Contains self.old.rows tree → IsOk result }
        ensures found { Contains self.old.rows tree → OnOk result (self.new.rows ≡ self.old.rows) }
        ensures added { ¬ (Contains self.old.rows tree)
            → OnOk result (self.new.rows ≡ self.old.rows ++ tree ∷ []) }
        ensures rises { OnOk result (self.new.interns ≡ min (self.old.interns + 1) (2 ^ 64 - 1)) }
    {
        let row = row_for(&mut self.rows, tree)?;
        self.interns = self.interns.saturating_add(1);
        Ok(Shared::at(row))
    }

    fn again(&mut self, _alloc: Global, s: &Shared) -> Result<Shared, AllocError>
        requires { HasRow self.old s.now }
        ensures ok { IsOk result }
        ensures row { IfOk result (λ t. row_of t ≡ row_of s.now) }
        ensures unchanged { self.new ≡ self.old }

        ensures answered { IfOk result (λ t. HasRow self.new t) }
        ensures content { IfOk result (λ t. tree_at self.new t ≡ tree_at self.old s.now) }
        ensures kept { Keeps HasRow tree_at self.old self.new }
        ensures uncounted { self.new.interns ≡ self.old.interns }
        ensures err { OnErr result (self.new ≡ self.old) }
    {
        Ok(Shared::at(s.row()))
    }
}

// The row that holds this tree; a tree without a row gets the next.
fn row_for(rows: &mut IndexSet<Tree>, tree: Tree) -> Result<usize, AllocError>
    ensures row { IfOk result (λ row. slice_get rows.new.keys row ≡ Some tree) }
    ensures found { Contains rows.old.keys tree → rows.new.keys ≡ rows.old.keys }
    ensures added { ¬ (Contains rows.old.keys tree) → OnOk result (rows.new.keys ≡ rows.old.keys ++ tree ∷ []) }
    ensures held { Contains rows.old.keys tree → IsOk result }
    ensures longer { length rows.old.keys ≤ length rows.new.keys }
    ensures kept { (row : ℕ) (d : TreeLists) → row < length rows.old.keys
        → slice_index_or rows.new.keys row d ≡ slice_index_or rows.old.keys row d }
    ensures err { OnErr result (rows.new.keys ≡ rows.old.keys) }
{
    let (row, _is_new) = rows.insert_full(tree)?;
    Ok(row)
}
