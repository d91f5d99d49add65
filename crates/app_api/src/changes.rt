//! The changes that a callback asks of its connection's registrations.

ghost use Rattle.std.specs.Prelude.{◌≡◌, ◌<◌, ◌≤◌, [], ◌∷◌, ◌++◌, length};

use std::marker::Model;

/// One change: a registration is switched on or off for its connection.
#[derive(Clone, Copy, Debug, PartialEq, Eq)]
pub struct Change1 {
    /// The registration's number.
    pub reg: u8,
    /// Whether it is switched on.
    pub on: bool,
}

/// The most changes that one callback may ask, and that one registration of a script may have.
pub const MOST_CHANGES: usize = 4;

/// What stands behind the last change.
const BLANK: Change1 = Change1 { reg: 0, on: false };

/// At most four changes, in the order in which they were asked. Contracts see the list of them.
#[derive(Clone, Copy, Debug, PartialEq, Eq)]
pub struct Changes {
    items: [Change1; MOST_CHANGES],
    count: usize,
}

impl Model for Changes {
    ghost use Rattle.std.specs.Prelude.{List, take, length};
    ghost use Rattle.std.proofs.Common.{arith, rules, length-take-le};
    ghost use Rattle.app_api.specs.declared.changes.Change1.{Change1};
    ghost use Rattle.app_api.specs.Changes.{padded, IsPadded, padded-take};

    ghost Value = { List Change1 };

    ghost view = { λ c. take c.count c.items };

    ghost invariant = { λ c. IsPadded c.items c.count };

    ghost inverse = { λ l. record { items = padded l; count = length l } };

    ghost inverse_ok = { λ c h i. record {
      items = padded-take c.items c.count h i;
      count = length-take-le c.count c.items (Prim.omega (arith, h.few, h.whole)) i;
    } };
}

impl Changes {
    /// No change.
    pub fn new() -> Changes
        ensures { result ≡ [] }
    {
        Changes {
            items: [BLANK; MOST_CHANGES],
            count: 0,
        }
    }

    /// Adds a change at the end.
    pub fn add(&mut self, c: Change1)
        requires { length self.old < 4 }
        ensures { self.new ≡ self.old ++ c ∷ [] }
    {
        self.items[self.count] = c;
        self.count += 1;
    }

    /// The changes in order.
    pub fn as_slice(&self) -> &[Change1]
        ensures items { result.now ≡ self.now }
        ensures within { length self.now ≤ 4 }
    {
        &self.items[..self.count]
    }
}
