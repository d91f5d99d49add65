//! What one phase raises, with its facts kept once for all of its events.

ghost use Rattle.std.specs.Prelude.{◌≡◌, ◌+◌, ◌<◌, ◌≤◌, [], ◌++◌, length};
ghost use Rattle.builtin_events.specs.Raised.{event_if, raises_of};

use crate::phases::MOST_RAISES;
use crate::raise::{Raise, RaiseList};
use arrayvec::ArrayVec;
use native_filters::{Facts, Hook};
use std::marker::Model;

/// What one phase of a packet raises. All its raises are at one side and have the same facts.
#[derive(Debug, Drop)]
pub struct Raised {
    /// The side.
    pub hook: Hook,
    /// The facts of each raise.
    pub facts: Facts,
    /// The numbers of the events, in the order in which they are raised.
    pub events: EventList,
}

/// The numbers of events, at most [`MOST_RAISES`]. Contracts see the list of them.
#[derive(Debug, Drop)]
pub struct EventList {
    items: ArrayVec<u16, MOST_RAISES>,
}

impl Model for EventList {
    ghost use Rattle.std.specs.Prelude.{◌≤◌, ℕ, List, length};
    ghost use Rattle.builtin_events.specs.declared.phases.TheConstants.{MOST_RAISES};

    ghost Value = { List ℕ };

    ghost view = { λ l. l.items.items };

    ghost invariant = { λ l. length l.items.items ≤ MOST_RAISES };
}

impl EventList {
    /// No event.
    pub(crate) fn new() -> EventList
        ensures { result ≡ [] }
    {
        EventList {
            items: ArrayVec::new(),
        }
    }

    /// Adds an event at the end where a condition holds.
    pub(crate) fn add_if(&mut self, holds: bool, event: u16)
        requires { length self.old < MOST_RAISES }
        ensures items { self.new ≡ self.old ++ event_if holds event }
        ensures more { length self.new ≤ length self.old + 1 }
    {
        if holds {
            self.items.push(event);
        }
    }

    /// The numbers in order.
    pub fn as_slice(&self) -> &[u16]
        ensures items { result.now ≡ self.now }
        ensures within { length self.now ≤ MOST_RAISES }
    {
        self.items.as_slice()
    }
}

impl Raised {
    /// The raises one by one, each with its facts.
    pub fn to_list(&self) -> RaiseList
        ensures { result ≡ raises_of self.now }
    {
        let mut raises = RaiseList::new();
        for event in self.events.as_slice() {
            raises.add(Raise {
                hook: self.hook,
                event: *event,
                facts: self.facts,
            });
        }
        raises
    }
}
