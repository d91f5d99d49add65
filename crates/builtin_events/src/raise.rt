//! Raises, and the short list of them that one phase gives.

ghost use Rattle.std.specs.Prelude.{◌≡◌, ◌<◌, ◌≤◌, [], ◌∷◌, ◌++◌, length};

use crate::phases::MOST_RAISES;
use native_filters::{Facts, Hook};
use std::marker::Model;

/// A built-in event that is raised.
#[derive(Clone, Copy, Debug, PartialEq, Eq)]
pub struct Raise {
    /// The side at which it is raised.
    pub hook: Hook,
    /// The event's number.
    pub event: u16,
    /// The facts, the same for all raises of one phase.
    pub facts: Facts,
}

/// The raises of one phase in order, at most [`MOST_RAISES`]. Contracts see the list of them.
#[derive(Debug, Drop)]
pub struct RaiseList {
    items: [Raise; MOST_RAISES],
    count: usize,
}

impl Model for RaiseList {
    ghost use Rattle.std.specs.Prelude.{◌≡◌, ◌≤◌, List, take, length};
    ghost use Rattle.builtin_events.specs.declared.raise.Raise.{Raise};
    ghost use Rattle.builtin_events.specs.declared.phases.TheConstants.{MOST_RAISES};

    ghost Value = { List Raise };

    ghost view = { λ l. take l.count l.items };

    ghost invariant = { λ l. (l.count ≤ MOST_RAISES) × (length l.items ≡ MOST_RAISES) };
}

impl RaiseList {
    /// No raise.
    pub(crate) fn new() -> RaiseList
        ensures { result ≡ [] }
    {
        let blank = Raise {
            hook: Hook::Snd,
            event: 0,
            facts: Facts::none(),
        };
        RaiseList {
            items: [blank; MOST_RAISES],
            count: 0,
        }
    }

    /// Adds a raise at the end.
    pub(crate) fn add(&mut self, raise: Raise)
        requires { length self.old < MOST_RAISES }
        ensures { self.new ≡ self.old ++ raise ∷ [] }
    {
        self.items[self.count] = raise;
        self.count += 1;
    }

    /// The raises in order.
    pub fn as_slice(&self) -> &[Raise]
        ensures items { result.now ≡ self.now }
        ensures within { length self.now ≤ MOST_RAISES }
    {
        &self.items[..self.count]
    }
}
