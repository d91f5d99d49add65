//! The book of names that may become idle.

ghost use Rattle.std.specs.Prelude.{◌≡◌, ℕ, ◌+◌, ◌↔◌, None, Some, true, false, IfSome, IfNone, IsNone, OnOk, OnErr};
ghost use Rattle.std.specs.FinMap as map;
ghost use Rattle.flow_timers.specs.Notes.{Notes, is_idle_in, IsLeast};

use crate::deadline::{Deadline, first_of, take_old};
use crate::moment::Moment;
use std::alloc::{AllocError, Global};
use std::collections::{BTreeMap, BTreeSet};
use std::marker::Model;

/// What is noted of a name.
#[derive(Clone, Copy, Debug, PartialEq, Eq)]
pub struct Noted {
    /// When it was last heard of.
    pub last: Moment,
    /// For how many seconds it may be silent, 0 to 4,294,967,295.
    pub limit: u32,
}

/// Names, each with its last moment and its limit, in order of deadlines: of the moments after which they are idle.
/// Contracts see it as a finite map. Every call takes time in the logarithm of the number of names.
#[derive(Drop)]
pub struct IdleBook {
    noted: BTreeMap<u64, Noted>,
    deadlines: BTreeSet<Deadline>,
}

impl Model for IdleBook {
    ghost use Rattle.std.specs.FinMap as map;
    ghost use Rattle.flow_timers.specs.Notes.{Notes, coded_notes};
    ghost use Rattle.flow_timers.specs.Deadlines.{AreDeadlines};

    ghost Value = { Notes };

    ghost coded = { coded_notes };

    ghost view = { λ book. map.from_entries book.noted.entries };

    ghost invariant = { λ book. AreDeadlines book.noted book.deadlines };
}

impl IdleBook {
    /// An empty book. It takes no memory.
    pub fn new(alloc: Global) -> IdleBook
        ensures { result ≡ map.empty }
    {
        IdleBook {
            noted: BTreeMap::new(alloc),
            deadlines: BTreeSet::new(alloc),
        }
    }

    /// Notes a name with its last moment and its limit in seconds, in place of what was noted of it before, be that
    /// earlier or later. Without memory the book stays as it was; a name that is there can want some too.
    pub fn note(&mut self, name: u64, last: Moment, limit: u32) -> Result<(), AllocError>
        ensures ok { OnOk result (self.new ≡ map.insert self.old name (record { last = last; limit = limit })) }
        ensures err { OnErr result (self.new ≡ self.old) }
    {
        let noted = Noted { last, limit };
        let deadline = Deadline::of(name, noted);
        self.deadlines.insert(deadline)?;
        match self.noted.insert(name, noted) {
            Ok(Some(before)) => {
                take_old(&mut self.deadlines, Deadline::of(name, before), deadline);
                Ok(())
            }
            Ok(None) => Ok(()),
            Err(_) => {
                self.deadlines.remove(&deadline);
                Err(AllocError)
            }
        }
    }

    /// Removes a name, if it is there. It takes no memory.
    pub fn forget(&mut self, name: u64)
        ensures { self.new ≡ map.remove self.old name }
    {
        if let Some(noted) = self.noted.remove(&name) {
            self.deadlines.remove(&Deadline::of(name, noted));
        }
    }

    /// Removes and gives the name that is idle at `now` and has the least deadline, of equal ones the least name.
    /// Where none is idle, the answer is `None`, and the book stays as it was. It takes no memory.
    pub fn due(&mut self, now: Moment) -> Option<u64>
        ensures idle { IfSome result (λ name. is_idle_in self.old now name ≡ true) }
        ensures least { IfSome result (IsLeast self.old) }
        ensures removed { IfSome result (λ name. self.new ≡ map.remove self.old name) }
        ensures none { IsNone result ↔ ((name : ℕ) → is_idle_in self.old now name ≡ false) }
        ensures unchanged { IfNone result (self.new ≡ self.old) }
    {
        let first = first_of(&self.deadlines)?;
        if !first.has_passed(now) {
            return None;
        }
        self.forget(first.name);
        Some(first.name)
    }
}
