//! Trees as the keys of a hash set: when two are one key, and what of a tree its hash reads.

use crate::{Node, Slot, Tree};
use std::hash::{Hash, Hasher};

impl Hash for Node {
    ghost use Rattle.shared_forest.specs.Key.{node_fed};
    ghost use Rattle.shared_forest.specs.KeyLaws.{node_alike};

    ghost hash_input = { node_fed };

    ghost respects_eq = { node_alike };

    fn hash<H: Hasher>(&self, state: &mut H) {
        state.write_u16(self.event);
        state.write_u8(self.depth);
        state.write_u32(self.below);
        state.write_u32(self.first);
        state.write_u8(self.count);
    }
}

impl Hash for Slot {
    ghost use Rattle.shared_forest.specs.Key.{slot_fed};
    ghost use Rattle.shared_forest.specs.KeyLaws.{slot_alike};

    ghost hash_input = { slot_fed };

    ghost respects_eq = { slot_alike };

    fn hash<H: Hasher>(&self, state: &mut H) {
        state.write_u8(self.number);
        state.write_u8(self.hook as u8);
    }
}

impl PartialEq for Tree {
    ghost use Rattle.std.specs.Cmp.{partial_equiv_from_equiv};
    ghost use Rattle.shared_forest.specs.Key.{same_tree};
    ghost use Rattle.shared_forest.specs.KeyLaws.{same_tree-equiv};

    ghost eq = { same_tree };

    ghost laws = { partial_equiv_from_equiv same_tree-equiv };

    fn eq(&self, other: &Tree) -> bool {
        self.is_same(other)
    }
}

impl Eq for Tree {
    ghost use Rattle.shared_forest.specs.KeyLaws.{same_tree-equiv};

    ghost laws = { same_tree-equiv };
}

impl Hash for Tree {
    ghost use Rattle.shared_forest.specs.Key.{tree_fed};
    ghost use Rattle.shared_forest.specs.KeyLaws.{tree_alike};

    ghost hash_input = { tree_fed };

    ghost respects_eq = { tree_alike };

    fn hash<H: Hasher>(&self, state: &mut H) {
        self.nodes().hash(state);
        self.slots().hash(state);
    }
}
