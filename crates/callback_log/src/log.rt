//! The callbacks of one record.

ghost use Rattle.std.specs.Prelude.{◌≡◌, ◌<◌, ◌++◌, ◌∷◌, [], vec_len, vec_capacity, OnOk, OnErr, IfOk};
ghost use Rattle.std.specs.Vec.Iter.{into_iter_items};
ghost use Rattle.callback_log.specs.Entries.{seen_first, seen_later, seen_kept};

use crate::note::{Note, has_seen};
use crate::walk::Callbacks;
use app_api::{Entry, EntryList, Seen};
use std::alloc::{AllocError, Global};
use std::marker::Model;
use std::vec::IntoIter;

/// The callbacks of one record, in the order in which they were made. Contracts see the list of their entries.
#[derive(Drop)]
pub struct CallbackLog {
    notes: Vec<Note>,
    /// What those saw that had a peek, in the same order.
    peeks: Vec<Seen>,
}

impl Model for CallbackLog {
    ghost use Rattle.std.specs.Prelude.{◌≡◌, List, length};
    ghost use Rattle.app_api.specs.declared.entry.Entry.{Entry};
    ghost use Rattle.callback_log.specs.Entries.{entries_of, peeks_in};

    ghost Value = { List Entry };

    ghost view = { λ log. entries_of log.notes.items log.peeks.items };

    ghost invariant = { λ log. peeks_in log.notes.items ≡ length log.peeks.items };
}

impl CallbackLog {
    /// No callback. It takes no memory.
    pub fn new(alloc: Global) -> CallbackLog
        ensures { result ≡ [] }
    {
        CallbackLog {
            notes: Vec::new(alloc),
            peeks: Vec::new(alloc),
        }
    }

    /// One more callback. At an error, which is want of memory, the log is as before.
    #[inline(always)]
    pub fn push(&mut self, entry: Entry) -> Result<(), AllocError>
        ensures kept { OnOk result (self.new ≡ self.old ++ entry ∷ []) }
        ensures stays { OnErr result (self.new ≡ self.old) }
    {
        let Entry {
            index,
            hook,
            event,
            reg,
            seen,
        } = entry;
        let note = Note {
            index,
            event,
            reg,
            hook,
            saw: has_seen(&seen),
        };
        make_room(&mut self.notes)?;
        keep_seen(&mut self.peeks, seen)?;
        self.notes.push_reserved(note);
        Ok(())
    }

    /// The callbacks in order.
    pub fn callbacks(&self) -> Callbacks<'_>
        ensures { result ≡ self.now }
    {
        Callbacks::new(self.notes.as_slice(), self.peeks.as_slice())
    }

    /// The callbacks as entries, in memory for just so many. An error is want of memory.
    pub fn into_list(self, alloc: Global) -> Result<EntryList, AllocError>
        ensures { IfOk result (λ list. list ≡ self) }
    {
        let CallbackLog { notes, peeks } = self;
        let mut peeks = peeks.into_iter();
        let mut items = Vec::with_capacity(alloc, notes.len())?;
        for note in notes.as_slice() {
            let seen = take_seen(note.saw, &mut peeks);
            items.push(note.entry(seen))?;
        }
        Ok(EntryList { items })
    }
}

// Room for one note more. A full list grows by half and eight places, not to twice its length: a run keeps a list for each of
// many records to its end. The first room is for eight, since a list that grows is copied.
#[inline(always)]
fn make_room(notes: &mut Vec<Note>) -> Result<(), AllocError>
    ensures room { OnOk result (vec_len notes.new < vec_capacity notes.new) }
    ensures same { notes.new.items ≡ notes.old.items }
{
    let len = notes.len();
    if len < notes.capacity() {
        return Ok(());
    }
    notes.reserve_exact(len / 2 + 8)
}

// Keeps what a callback saw, if it had a peek.
#[inline(always)]
fn keep_seen(peeks: &mut Vec<Seen>, seen: Seen) -> Result<(), AllocError>
    ensures kept { OnOk result (peeks.new.items ≡ peeks.old.items ++ seen_kept seen) }
    ensures stays { OnErr result (peeks.new.items ≡ peeks.old.items) }
{
    if has_seen(&seen) {
        peeks.push(seen)?;
    }
    Ok(())
}

// What the next callback saw: the first of what is left, if it had a peek.
fn take_seen(saw: bool, peeks: &mut IntoIter<Seen>) -> Seen
    ensures first { result ≡ seen_first saw (into_iter_items peeks.old) }
    ensures later { into_iter_items peeks.new ≡ seen_later saw (into_iter_items peeks.old) }
{
    if !saw {
        return Seen::Nothing;
    }
    match peeks.next() {
        Some(seen) => seen,
        None => Seen::Nothing,
    }
}
