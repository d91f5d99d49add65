//! Lists that contracts see as the list of their items.

ghost use Rattle.std.specs.Prelude.{◌≡◌};

use crate::entry::Entry;
use crate::reaction::Reason;
use crate::registration::Reg;
use std::marker::Model;

/// Bytes of a stream or a text.
#[derive(Debug, Drop)]
pub struct Bytes {
    /// The items in order.
    pub items: Vec<u8>,
}

impl Model for Bytes {
    ghost use Rattle.std.specs.Prelude.{List, ℕ};

    ghost Value = { List ℕ };

    ghost view = { λ l. l.items.items };
}

impl Bytes {
    /// The items in order.
    pub fn as_slice(&self) -> &[u8]
        ensures { result.now ≡ self.now }
    {
        self.items.as_slice()
    }
}

/// Runs of bytes, each with the position of its first byte.
#[derive(Debug, Drop)]
pub struct PieceList {
    /// The items in order.
    pub items: Vec<(u64, Bytes)>,
}

impl Model for PieceList {
    ghost use Rattle.std.specs.Prelude.{List, ℕ};

    ghost Value = { List (ℕ × List ℕ) };

    ghost view = { λ l. l.items.items };
}

impl PieceList {
    /// The items in order.
    pub fn as_slice(&self) -> &[(u64, Bytes)]
        ensures { result.now ≡ self.now }
    {
        self.items.as_slice()
    }
}

/// The callbacks of one record, in the order in which they were made.
#[derive(Debug, Drop)]
pub struct EntryList {
    /// The items in order.
    pub items: Vec<Entry>,
}

impl Model for EntryList {
    ghost use Rattle.std.specs.Prelude.{List};
    ghost use Rattle.app_api.specs.declared.entry.Entry.{Entry};

    ghost Value = { List Entry };

    ghost view = { λ l. l.items.items };
}

impl EntryList {
    /// The items in order.
    pub fn as_slice(&self) -> &[Entry]
        ensures { result.now ≡ self.now }
    {
        self.items.as_slice()
    }
}

/// Dropped packets by their places in the capture, each with its reason.
#[derive(Debug, Drop)]
pub struct DropList {
    /// The items in order.
    pub items: Vec<(u64, Reason)>,
}

impl Model for DropList {
    ghost use Rattle.std.specs.Prelude.{List, ℕ};
    ghost use Rattle.app_api.specs.declared.reaction.Reason.{Reason};

    ghost Value = { List (ℕ × Reason) };

    ghost view = { λ l. l.items.items };
}

impl DropList {
    /// The items in order.
    pub fn as_slice(&self) -> &[(u64, Reason)]
        ensures { result.now ≡ self.now }
    {
        self.items.as_slice()
    }
}

/// The fields of an application, each with its name and value.
#[derive(Debug, Drop)]
pub struct FieldList {
    /// The items in order.
    pub items: Vec<(Bytes, u64)>,
}

impl Model for FieldList {
    ghost use Rattle.std.specs.Prelude.{List, ℕ};

    ghost Value = { List (List ℕ × ℕ) };

    ghost view = { λ l. l.items.items };
}

impl FieldList {
    /// The items in order.
    pub fn as_slice(&self) -> &[(Bytes, u64)]
        ensures { result.now ≡ self.now }
    {
        self.items.as_slice()
    }
}

/// The registrations that are on for one connection.
#[derive(Debug, Drop)]
pub struct ActiveList {
    /// The items in order.
    pub items: Vec<Reg>,
}

impl Model for ActiveList {
    ghost use Rattle.std.specs.Prelude.{List};
    ghost use Rattle.app_api.specs.declared.registration.Reg.{Reg};

    ghost Value = { List Reg };

    ghost view = { λ l. l.items.items };
}

impl ActiveList {
    /// The items in order.
    pub fn as_slice(&self) -> &[Reg]
        ensures { result.now ≡ self.now }
    {
        self.items.as_slice()
    }
}
