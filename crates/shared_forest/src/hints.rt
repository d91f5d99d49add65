//! Hints of where trees stand. No clause speaks of them, since each is tested before it is believed.

use crate::Tree;
use std::alloc::{AllocError, Global};
use std::collections::HashMap;
use std::hash::{BuildHasher, BuildHasherDefault, FoldHasher};

/// The hash by which a tree is found. Its seed is fixed: whoever picks the trees can make them collide, and then a
/// look-up goes through all of them.
pub(crate) fn hash_of(tree: &Tree) -> u64 {
    let hasher: BuildHasherDefault<FoldHasher> = BuildHasherDefault::new();
    hasher.hash_one(tree)
}

/// The rows at which the trees of a hash may stand.
#[derive(Drop)]
pub(crate) struct Hints {
    rows: HashMap<u64, Vec<usize>>,
}

impl Hints {
    pub(crate) fn new(alloc: Global) -> Hints {
        Hints {
            rows: HashMap::new(alloc),
        }
    }

    /// The rows of a hash.
    pub(crate) fn rows(&self, hash: u64) -> Option<&Vec<usize>> {
        self.rows.get(&hash)
    }

    /// Makes room for one row more of a hash.
    pub(crate) fn reserve(&mut self, alloc: Global, hash: u64) -> Result<(), AllocError> {
        if !self.rows.contains_key(&hash) {
            self.rows.insert(hash, Vec::new(alloc))?;
        }
        match self.rows.get_mut(&hash) {
            Some(rows) => rows.reserve(1),
            None => Ok(()),
        }
    }

    /// Adds a row of a hash, for which there is room.
    pub(crate) fn add(&mut self, hash: u64, row: usize) {
        if let Some(rows) = self.rows.get_mut(&hash) {
            drop(rows.push(row));
        }
    }
}
