//! The callbacks of a log, one after the other, without entries of their own.

ghost use Rattle.std.specs.Prelude.{◌≡◌, ◌∷◌, [], MatchOption};
ghost use Rattle.callback_log.specs.Entries.{entries_of, seen_first, seen_later};
ghost use Rattle.callback_log.specs.Walk.{entry_lent, seen_lent};

use crate::note::Note;
use app_api::{Entry, Seen};
use native_filters::Hook;
use std::marker::Model;

/// One callback, lent by the log or the list in which it is kept.
#[derive(Clone, Copy, Debug)]
pub struct Callback<'a> {
    /// The packet's place in the capture, from 0.
    pub index: u64,
    /// The side at which it was made.
    pub hook: Hook,
    /// The number of the registration's event.
    pub event: u16,
    /// The registration's number.
    pub reg: u8,
    /// What it saw. `None` is nothing, as of a callback that had no peek.
    pub seen: Option<&'a Seen>,
}

impl<'a> Callback<'a> {
    /// The callback of an entry.
    pub fn of(entry: &'a Entry) -> Callback<'a>
        ensures { entry_lent result ≡ entry.now }
    {
        Callback {
            index: entry.index,
            hook: entry.hook,
            event: entry.event,
            reg: entry.reg,
            seen: Some(&entry.seen),
        }
    }
}

/// The callbacks of a log in order, from one on. Contracts see the list of the entries that are left.
#[derive(Drop)]
pub struct Callbacks<'a> {
    notes: &'a [Note],
    peeks: &'a [Seen],
}

impl<'a> Model for Callbacks<'a> {
    ghost use Rattle.std.specs.Prelude.{List};
    ghost use Rattle.app_api.specs.declared.entry.Entry.{Entry};
    ghost use Rattle.callback_log.specs.Entries.{entries_of};

    ghost Value = { List Entry };

    ghost view = { λ walk. entries_of walk.notes.now walk.peeks.now };
}

impl<'a> Callbacks<'a> {
    // All callbacks of a log.
    pub(crate) fn new(notes: &'a [Note], peeks: &'a [Seen]) -> Callbacks<'a>
        ensures { result ≡ entries_of notes.now peeks.now }
    {
        Callbacks { notes, peeks }
    }

    /// The next callback; `None` where none is left.
    pub fn next(&mut self) -> Option<Callback<'a>>
        ensures { MatchOption result (self.old ≡ []) (λ callback. self.old ≡ entry_lent callback ∷ self.new) }
    {
        let (note, notes) = self.notes.split_first()?;
        let (seen, peeks) = next_seen(note.saw, self.peeks);
        self.notes = notes;
        self.peeks = peeks;
        Some(Callback {
            index: note.index,
            hook: note.hook,
            event: note.event,
            reg: note.reg,
            seen,
        })
    }
}

// What the next callback saw, which is the first of what is left if it had a peek, and what is left then.
fn next_seen(saw: bool, peeks: &[Seen]) -> (Option<&Seen>, &[Seen])
    ensures first { seen_lent result.0 ≡ seen_first saw peeks.now }
    ensures later { result.1.now ≡ seen_later saw peeks.now }
{
    if !saw {
        return (None, peeks);
    }
    match peeks.split_first() {
        Some((seen, rest)) => (Some(seen), rest),
        None => (None, peeks),
    }
}
