//! What is noted of callbacks: in their record, and for the packet under way.

ghost use Rattle.std.specs.Prelude.{◌≡◌, ◌+◌, ◌<◌, ◌≤◌, ◌^◌, ◌++◌, [], None, IsTrue, OnOk};
ghost use Rattle.std.specs.Option.{option_or};
ghost use Rattle.connection_core.specs.Standing.{kept_with, IsBegun, HasSame};

use app_api::{Change1, Entry, Reaction, Reason, Tally};
use callback_log::CallbackLog;
use std::alloc::{AllocError, Global};

/// What is kept of a record's callbacks.
#[derive(Drop)]
pub struct Notes {
    /// What the application keeps.
    pub tally: Tally,
    /// The callbacks in order, where entries are kept.
    pub entries: CallbackLog,
}

/// What a run's callbacks amount to.
#[derive(Clone, Copy, Debug, PartialEq, Eq)]
pub struct Counts {
    /// How many were made.
    pub callbacks: u64,
    /// For each of them 32, and the bytes that it saw.
    pub weight: u64,
}

/// What the callbacks of the packet under way ask, and the counts of all callbacks so far. The room for changes is used
/// again by the next raise, and by the next packet.
#[derive(Drop)]
pub struct Ledger {
    /// The changes asked in this raise, in order.
    pub changes: Vec<Change1>,
    /// The first reason for which a drop was asked.
    pub drop: Option<Reason>,
    pub counts: Counts,
}

impl Notes {
    /// Before the first callback. It takes no memory.
    pub fn new(alloc: Global, tally: Tally) -> Notes
        ensures tally { result.tally ≡ tally }
        ensures entries { result.entries ≡ [] }
    {
        Notes {
            tally,
            entries: CallbackLog::new(alloc),
        }
    }

    /// Keeps an entry, where these are kept.
    #[inline(always)]
    pub(crate) fn keep_entry(&mut self, keep: bool, entry: Entry) -> Result<(), AllocError>
        ensures tally { self.new.tally ≡ self.old.tally }
        ensures entries { OnOk result (self.new.entries ≡ kept_with keep self.old.entries entry) }
    {
        if !keep {
            return Ok(());
        }
        self.entries.push(entry)
    }
}

/// What a callback weighs beside the bytes that it saw.
const CALLBACK_WEIGHT: u64 = 32;

impl Ledger {
    /// Before the first packet. It takes no memory.
    pub fn new(alloc: Global) -> Ledger
        ensures changes { result.changes.items ≡ [] }
        ensures drop { result.drop ≡ None }
        ensures counts { result.counts ≡ record { callbacks = 0; weight = 0 } }
    {
        Ledger {
            changes: Vec::new(alloc),
            drop: None,
            counts: Counts {
                callbacks: 0,
                weight: 0,
            },
        }
    }

    /// A packet begins, for which nothing was asked yet.
    #[inline(always)]
    pub(crate) fn begin(&mut self)
        ensures { IsBegun self.old self.new }
    {
        self.changes.clear();
        self.drop = None;
    }

    /// Room for so many changes.
    pub(crate) fn make_room(&mut self, changes: usize) -> Result<(), AllocError>
        ensures { HasSame self.old self.new }
    {
        self.changes.reserve(changes)
    }

    /// Whether no change is asked.
    #[inline(always)]
    pub(crate) fn asks_no_change(&self) -> bool
        ensures { IsTrue result → self.now.changes.items ≡ [] }
    {
        self.changes.is_empty()
    }

    /// Counts a callback that saw so many bytes.
    #[inline(always)]
    pub(crate) fn count(&mut self, got: u32)
        requires callbacks { self.old.counts.callbacks < 2 ^ 63 }
        requires weight { self.old.counts.weight < 2 ^ 63 }
        ensures callbacks { self.new.counts.callbacks ≡ self.old.counts.callbacks + 1 }
        ensures weight { self.new.counts.weight ≡ self.old.counts.weight + (32 + got) }
        ensures changes { self.new.changes ≡ self.old.changes }
        ensures drop { self.new.drop ≡ self.old.drop }
    {
        self.counts.callbacks += 1;
        self.counts.weight += CALLBACK_WEIGHT + u64::from(got);
    }

    /// Notes what a callback asks.
    #[inline(always)]
    pub(crate) fn ask(&mut self, reaction: &Reaction) -> Result<(), AllocError>
        ensures changes { OnOk result (self.new.changes.items ≡ self.old.changes.items ++ reaction.now.changes) }
        ensures drop { self.new.drop ≡ option_or self.old.drop reaction.now.drop }
        ensures counts { self.new.counts ≡ self.old.counts }
    {
        if reaction.drop.is_some() && self.drop.is_none() {
            self.drop = reaction.drop;
        }
        let changes = reaction.changes.as_slice();
        if changes.is_empty() {
            return Ok(());
        }
        self.changes.extend_from_slice(changes)
    }
}
