//! A store that counts how often a tree is looked at.
ghost use Rattle.std.specs.Prelude.{Some};

use shared_forest::{ForestView, Forests, Shared, Table, Tree};
use std::alloc::{AllocError, Global};
use std::cell::Cell;

// A table and the looks at its trees.
#[derive(Drop)]
pub struct Counting {
    table: Table,
    looks: Cell<u64>,
}

impl Counting {
    pub fn new(alloc: Global) -> Counting {
        Counting {
            table: Table::new(alloc),
            looks: Cell::new(0),
        }
    }

    // How often a tree was looked at.
    pub fn looks(&self) -> u64 {
        self.looks.get()
    }
}

impl ForestView for Counting {
    ghost use Rattle.shared_forest.specs.Rows.{HasRow, HasRow-once, tree_at};

    ghost answered = { λ f s. HasRow f.table s };

    ghost answered_once = { λ f s. HasRow-once f.table s };

    ghost content = { λ f s. tree_at f.table s };

    ghost interns = { λ f. Some f.table.interns };

    fn tree_of<'a>(&'a self, s: &'a Shared) -> &'a Tree {
        self.looks.set(self.looks.get().wrapping_add(1));
        self.table.tree_of(s)
    }

    fn same(&self, a: &Shared, b: &Shared) -> bool {
        self.table.same(a, b)
    }
}

impl Forests for Counting {
    fn intern(&mut self, alloc: Global, tree: Tree) -> Result<Shared, AllocError> {
        self.table.intern(alloc, tree)
    }

    fn again(&mut self, alloc: Global, s: &Shared) -> Result<Shared, AllocError> {
        self.table.again(alloc, s)
    }
}
