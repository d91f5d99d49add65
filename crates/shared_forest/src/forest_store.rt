//! The store that threads share.

ghost use Rattle.std.specs.Prelude.{◌≡◌, IfOk, IfSome};
ghost use Rattle.boxcar.specs.Table.{Shows};

use crate::Tree;
use crate::hints::{Hints, hash_of};
use boxcar::Pushed;
use std::alloc::{AllocError, Global};
use std::marker::Model;
use std::sync::{Mutex, Wait};

/// A store of trees for any number of threads: a row for each different tree, which is found by whoever needs it.
///
/// Rows are never changed, and are read without a lock. A tree is looked for under one lock, by its hash. Contracts
/// see of the store which one it is.
#[derive(Drop)]
pub struct ForestStore {
    rows: boxcar::Vec<Tree>,
    hints: Mutex<Hints>,
}

impl Model for ForestStore {
    ghost use Rattle.boxcar.specs.Table.{Shelves, shelves_coded};

    ghost Value = { Shelves };

    ghost coded = { shelves_coded };

    ghost view = { λ s. s.rows };
}

impl ForestStore {
    /// A store without a row.
    pub fn new(alloc: Global) -> Result<ForestStore, AllocError> {
        let rows = boxcar::Vec::new(alloc)?;
        let hints = Mutex::new(Hints::new(alloc));
        Ok(ForestStore { rows, hints })
    }

    /// The tree of a row.
    pub(crate) fn tree_of<'a>(&'a self, token: &Pushed<Tree>) -> &'a Tree
        requires { Shows self.now token.now }
        ensures { result.now ≡ token.now.value }
    {
        self.rows.value(token)
    }

    /// A row has one tree.
    pub(crate) fn agrees(&self, a: &Pushed<Tree>, b: &Pushed<Tree>)
        requires first { Shows self.now a.now }
        requires second { Shows self.now b.now }
        requires row { a.now.index ≡ b.now.index }
        ensures { a.now.value ≡ b.now.value }
    {
        self.rows.agrees(a, b);
    }

    // The one of these rows that holds this tree.
    fn find(&self, rows: &[usize], tree: &Tree) -> Option<Pushed<Tree>>
        ensures { IfSome result (λ t. Shows self.now t × (t.value ≡ tree.now)) }
    {
        for row in rows {
            if let Some(token) = self.rows.witness(*row) {
                if self.rows.value(&token).is_same(tree) {
                    return Some(token);
                }
            }
        }
        None
    }

    /// The row of this tree; a tree that no hint leads to gets a new one. An error is want of memory, and adds no row.
    pub(crate) fn find_or_add<R: Wait>(
        &self,
        rt: &R,
        alloc: Global,
        tree: Tree,
    ) -> Result<Pushed<Tree>, AllocError>
        ensures { IfOk result (λ t. Shows self.now t × (t.value ≡ tree)) }
    {
        let hash = hash_of(&tree);
        let mut hints = self.hints.lock(rt);
        if let Some(rows) = hints.rows(hash) {
            if let Some(token) = self.find(rows, &tree) {
                return Ok(token);
            }
        }
        hints.reserve(alloc, hash)?;
        let Ok(token) = self.rows.push_shown(rt, tree) else {
            return Err(AllocError);
        };
        hints.add(hash, token.index());
        Ok(token)
    }
}
