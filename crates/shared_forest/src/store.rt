//! What a store of trees offers: places, and the trees at them.

ghost use Rattle.std.specs.Prelude.{◌≡◌, ◌≤◌, ◌+◌, ◌↔◌, IsTrue, Option, Some, IfOk, OnOk, OnErr, ℕ};
ghost use Rattle.std.specs.Option.{option_copied};
ghost use Rattle.shared_forest.specs.Lists.{TreeLists};

use crate::Tree;
use boxcar::Pushed;
use std::alloc::{AllocError, Global};

/// A place in a store of trees: the number of a row. Two with one row number have equal trees.
///
/// It isn't `Copy`: a second one is taken by [`Forests::again`].
#[derive(Drop)]
pub struct Shared {
    row: usize,

    // What shows the row's tree to every thread; none in a store of one owner.
    token: Option<Pushed<Tree>>,
}

impl Shared {
    ghost use Rattle.shared_forest.specs.Store.{row_of, token_of};

    pub(crate) fn at(row: usize) -> Shared
        ensures { row_of result ≡ row }
    {
        Shared { row, token: None }
    }

    pub(crate) fn shown(token: Pushed<Tree>) -> Shared
        ensures row { row_of result ≡ token.index }
        ensures token { token_of result ≡ Some token }
    {
        Shared {
            row: token.index(),
            token: Some(token),
        }
    }

    pub(crate) fn token(&self) -> Option<&Pushed<Tree>>
        ensures { option_copied result ≡ token_of self.now }
    {
        self.token.as_ref()
    }

    /// The row's number, from 0.
    pub fn row(&self) -> usize
        ensures { result ≡ row_of self.now }
    {
        self.row
    }
}

/// Looks at the trees of a store. These calls never wait.
pub trait ForestView {
    ghost use Rattle.shared_forest.specs.declared.store.Shared.{Shared};
    ghost use Rattle.shared_forest.specs.Store.{row_of};

    /// Whether the store answered this Shared.
    ghost answered: { Self → Shared → Type 0 };

    /// It can't hold in two ways, so a ghost field may keep it.
    ghost answered_once: { (f : Self) (s : Shared) → IsProp (answered f s) };

    /// The tree of a Shared that the store answered.
    ghost content: { Self → Shared → TreeLists };

    /// How many calls of `intern` answered Ok so far, where the store tells it.
    ghost interns: { Self → Option ℕ };

    /// Lends the tree.
    fn tree_of<'a>(&'a self, s: &'a Shared) -> &'a Tree
        requires { answered self.now s.now }
        ensures { result.now ≡ content self.now s.now };

    /// Whether both have one row number. Then their trees are equal.
    fn same(&self, a: &Shared, b: &Shared) -> bool
        requires first { answered self.now a.now }
        requires second { answered self.now b.now }
        ensures rows { IsTrue result ↔ (row_of a.now ≡ row_of b.now) }
        ensures content { IsTrue result → content self.now a.now ≡ content self.now b.now };
}

/// A store of trees that are never changed. It keeps each different tree once where it can.
pub trait Forests: ForestView {
    ghost use Rattle.shared_forest.specs.declared.store.Shared.{Shared};
    ghost use Rattle.shared_forest.specs.Store.{Keeps, CountsAtMost};

    /// Puts a tree into the store. An error is want of memory, and changes nothing.
    fn intern(&mut self, alloc: Global, tree: Tree) -> Result<Shared, AllocError>
        ensures answered { IfOk result (λ s. Self.answered self.new s) }
        ensures content { IfOk result (λ s. Self.content self.new s ≡ tree) }
        ensures kept { Keeps Self.answered Self.content self.old self.new }
        ensures counted { CountsAtMost (Self.interns self.old) (Self.interns self.new) }
        ensures err { OnErr result (self.new ≡ self.old) };

    /// A second Shared of the same tree. An error is want of memory, and changes nothing.
    fn again(&mut self, alloc: Global, s: &Shared) -> Result<Shared, AllocError>
        requires { Self.answered self.old s.now }
        ensures answered { IfOk result (λ t. Self.answered self.new t) }
        ensures content { IfOk result (λ t. Self.content self.new t ≡ Self.content self.old s.now) }
        ensures kept { Keeps Self.answered Self.content self.old self.new }
        ensures uncounted { Self.interns self.new ≡ Self.interns self.old }
        ensures err { OnErr result (self.new ≡ self.old) };
}
