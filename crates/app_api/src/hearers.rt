//! Who hears an event at a hook, and who hears each of the built-in events.

ghost use Rattle.std.specs.Prelude.{◌≡◌, ◌<◌, ◌==◌, cond, false, length, slice_index_or, IfSome, IsTrue, ℕ};
ghost use Rattle.app_api.specs.declared.hearers.Hearers.{Hearers};
ghost use Rattle.app_api.specs.Events.{is_built_in};
ghost use Rattle.app_api.specs.Hearers.{joined, deep, hearers_in, is_heard_in, HearsAlone};

use crate::events::{EVENTS, LAST_EVENT, PKT_IN, START, is_of_packets, place_of};

/// The registrations that hear a root's event at a hook, those under the root included.
#[derive(Clone, Copy, Debug, PartialEq, Eq)]
pub enum Hearers {
    /// None has the hook.
    Nobody,
    /// Exactly one has the hook, and it stands at the root itself, where no filter is asked. Its number.
    One(u8),
    /// More than one, or one under the root.
    More,
}

impl Hearers {
    /// These and others together.
    pub fn joined(self, others: Hearers) -> Hearers
        ensures { result ≡ joined self others }
    {
        match (self, others) {
            (Hearers::Nobody, _) => others,
            (_, Hearers::Nobody) => self,
            _ => Hearers::More,
        }
    }

    /// The same registrations where they stand under a root.
    pub fn deep(self) -> Hearers
        ensures { result ≡ deep self }
    {
        match self {
            Hearers::Nobody => Hearers::Nobody,
            _ => Hearers::More,
        }
    }
}

/// Who hears each of the built-in events at one hook.
#[derive(Debug, Drop)]
pub struct Heard {
    of_each: [Hearers; EVENTS],
}

impl Heard {
    /// Nobody hears any of them.
    pub fn nobody() -> Heard
        ensures { (event : ℕ) → IsTrue (is_built_in event) → hearers_in result event ≡ Hearers.Nobody }
    {
        Heard {
            of_each: [Hearers::Nobody; EVENTS],
        }
    }

    /// Others hear an event too, if it is one of the built-in ones.
    pub fn add(&mut self, event: u16, others: Hearers)
        ensures { (other : ℕ) → IsTrue (is_built_in other) → hearers_in self.new other
            ≡ joined (hearers_in self.old other) (cond (event == other) others Hearers.Nobody) }
    {
        add_at(&mut self.of_each, place_of(event), others);
    }

    /// Who hears an event. A number that isn't one of the built-in events counts as heard by more.
    #[inline(always)]
    pub fn get(&self, event: u16) -> Hearers
        ensures hearers { result ≡ hearers_in self.now event }
        ensures known { result ≡ Hearers.Nobody → IsTrue (is_built_in event) }
    {
        let place = place_of(event);
        if place < EVENTS {
            self.of_each[place]
        } else {
            Hearers::More
        }
    }

    /// Whether an event is heard. A number that isn't one of the built-in events counts as heard.
    #[inline(always)]
    pub fn is_heard(&self, event: u16) -> bool
        ensures heard { result ≡ is_heard_in self.now event }
        ensures known { result ≡ false → IsTrue (is_built_in event) }
    {
        !matches!(self.get(event), Hearers::Nobody)
    }

    /// The number of the registration that alone hears packets, where there is one: it stands at `pkt_in`, and of what else
    /// a packet may raise nothing is heard.
    pub fn lone(&self) -> Option<u8>
        ensures { IfSome result (λ number. HearsAlone self.now number) }
    {
        let mut event = START;
        while event <= LAST_EVENT {
            if event != PKT_IN && is_of_packets(event) && self.is_heard(event) {
                return None;
            }
            event += 1;
        }
        match self.get(PKT_IN) {
            Hearers::One(number) => Some(number),
            _ => None,
        }
    }
}

// Joins others to those at a place, if there is one.
fn add_at(all: &mut [Hearers], place: usize, others: Hearers)
    ensures all { length all.new ≡ length all.old }
    ensures each { (i : ℕ) → i < length all.old → slice_index_or all.new i Hearers.More
        ≡ joined (slice_index_or all.old i Hearers.More) (cond (place == i) others Hearers.Nobody) }
{
    if place < all.len() {
        all[place] = all[place].joined(others);
    }
}
