//! A user of the store that threads share.

ghost use Rattle.std.specs.Prelude.{◌≡◌, ◌+◌, ◌-◌, ◌^◌, min, IfOk, OnOk, OnErr, IsOk, Some};
ghost use Rattle.std.specs.Arc.{arc_value};
ghost use Rattle.shared_forest.specs.Lists.{TreeLists};

use crate::Tree;
use crate::forest_store::ForestStore;
use crate::store::{ForestView, Forests, Shared};
use std::alloc::{AllocError, Global};
use std::marker::Model;
use std::sync::{Arc, Wait};

/// One of any number of users of a store, in any threads.
///
/// Calls that may wait take their handle from here. Looking at a tree never waits.
#[derive(Drop)]
pub struct StoreUser<R> {
    store: Arc<ForestStore, Global>,
    rt: R,
    interns: u64,
}

impl<R> Model for StoreUser<R> {
    ghost use Rattle.std.specs.Arc.{arc_value};
    ghost use Rattle.shared_forest.specs.Using.{Using, using_coded};

    ghost Value = { Using };

    ghost coded = { using_coded };

    ghost view = { λ u. record { rows = arc_value u.store; interns = u.interns } };
}

impl<R> StoreUser<R> {
    ghost use Rattle.shared_forest.specs.Store.{row_of};
    ghost use Rattle.shared_forest.specs.Using.{IsShownIn, tree_shown};

    /// A user of this store.
    pub fn new(store: Arc<ForestStore, Global>, rt: R) -> StoreUser<R>
        ensures rows { result.rows ≡ arc_value store }
        ensures interns { result.interns ≡ 0 }
    {
        StoreUser {
            store,
            rt,
            interns: 0,
        }
    }

    /// How many calls of `intern` of this user answered Ok so far; it stays at 2^64 - 1.
    pub fn interns(&self) -> u64
        ensures { result ≡ self.now.interns }
    {
        self.interns
    }

    /// Two users of one store: equal row numbers, equal trees, whichever of them put the trees in.
    pub fn agrees<Q>(&self, s: &Shared, other: &StoreUser<Q>, t: &Shared)
        requires store { self.now.rows ≡ other.now.rows }
        requires first { IsShownIn self.now.rows s.now }
        requires second { IsShownIn other.now.rows t.now }
        ensures { row_of s.now ≡ row_of t.now → tree_shown s.now ≡ tree_shown t.now }
    {
        if s.row() != t.row() {
            return;
        }
        if let Some(a) = s.token() {
            if let Some(b) = t.token() {
                self.store.agrees(a, b);
            }
        }
    }
}

impl<R> ForestView for StoreUser<R> {
    ghost use Rattle.shared_forest.specs.Using.{IsShownIn, IsShownIn-once, tree_shown};

    ghost answered = { λ u s. IsShownIn u.rows s };

    ghost answered_once = { λ u s. IsShownIn-once u.rows s };

    ghost content = { λ u s. tree_shown s };

    ghost interns = { λ u. Some u.interns };

    fn tree_of<'a>(&'a self, s: &'a Shared) -> &'a Tree {
        match s.token() {
            Some(token) => self.store.tree_of(token),
            None => unreachable!(),
        }
    }

    fn same(&self, a: &Shared, b: &Shared) -> bool {
        self.agrees(a, self, b);
        a.row() == b.row()
    }
}

impl<R: Wait> Forests for StoreUser<R> {
    ghost use Rattle.shared_forest.specs.Store.{Keeps, CountsAtMost, row_of};
    ghost use Rattle.shared_forest.specs.Using.{IsShownIn, tree_shown};

    fn intern(&mut self, alloc: Global, tree: Tree) -> Result<Shared, AllocError>
        ensures answered { IfOk result (λ s. IsShownIn self.new.rows s) }
        ensures content { IfOk result (λ s. tree_shown s ≡ tree) }
        ensures kept { Keeps (λ u s. IsShownIn u.rows s) (λ u s. tree_shown s) self.old self.new }
        ensures counted { CountsAtMost (Some self.old.interns) (Some self.new.interns) }
        ensures err { OnErr result (self.new ≡ self.old) }

        // It stays a user of one store.
        ensures rows { self.new.rows ≡ self.old.rows }
        ensures rises { OnOk result (self.new.interns ≡ min (self.old.interns + 1) (2 ^ 64 - 1)) }
    {
        let token = self.store.find_or_add(&self.rt, alloc, tree)?;
        self.interns = self.interns.saturating_add(1);
        Ok(Shared::shown(token))
    }

    fn again(&mut self, _alloc: Global, s: &Shared) -> Result<Shared, AllocError>
        requires { IsShownIn self.old.rows s.now }
        ensures ok { IsOk result }
        ensures row { IfOk result (λ t. row_of t ≡ row_of s.now) }
        ensures unchanged { self.new ≡ self.old }

        ensures answered { IfOk result (λ t. IsShownIn self.new.rows t) }
        ensures content { IfOk result (λ t. tree_shown t ≡ tree_shown s.now) }
        ensures kept { Keeps (λ u s. IsShownIn u.rows s) (λ u s. tree_shown s) self.old self.new }
        ensures uncounted { self.new.interns ≡ self.old.interns }
        ensures err { OnErr result (self.new ≡ self.old) }
    {
        match s.token() {
            Some(token) => Ok(Shared::shown(token.again())),
            None => unreachable!(),
        }
    }
}
