//! The events from a root down to an event, in a form that is copied.

ghost use Rattle.std.specs.Prelude.{◌≡◌, ◌≤◌, ◌++◌, [], ◌∷◌, length};

/// The most events on a path, the root and the event itself included.
const LONGEST: usize = 8;

/// The path of an event.
#[derive(Clone, Copy, Debug)]
pub struct EventPath {
    events: [u16; 8],
    count: u8,
    ghost within: { count ≤ 8 },
}

impl EventPath {
    ghost use Rattle.event_trees.specs.EventPath.{path_of};

    /// The path of the top node.
    pub fn empty() -> EventPath
        ensures { path_of result ≡ [] }
    {
        EventPath {
            events: [0; LONGEST],
            count: 0,
        }
    }

    /// The path of an event under the last one.
    pub fn with(&self, event: u16) -> EventPath
        requires { length (path_of self.now) ≤ 7 }
        ensures { path_of result ≡ path_of self.now ++ event ∷ [] }
    {
        let mut longer = *self;
        longer.events[self.count as usize] = event;
        longer.count += 1;
        longer
    }

    /// The events, the root first.
    pub fn events(&self) -> &[u16]
        ensures events { result.now ≡ path_of self.now }
        ensures within { length result.now ≤ 8 }
    {
        &self.events[..self.count as usize]
    }

    /// The number of events.
    pub fn len(&self) -> u8
        ensures { result ≡ length (path_of self.now) }
    {
        self.count
    }
}
