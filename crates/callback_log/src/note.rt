//! One callback, but for what it saw.

ghost use Rattle.std.specs.Prelude.{◌≡◌};
ghost use Rattle.callback_log.specs.Entries.{entry_with, has_seen};

use app_api::{Entry, Seen};
use native_filters::Hook;

/// One callback, but for what it saw. It takes 16 bytes.
#[derive(Clone, Copy, Debug, PartialEq, Eq)]
pub(crate) struct Note {
    /// The packet's place in the capture, from 0.
    pub(crate) index: u64,
    /// The number of the registration's event.
    pub(crate) event: u16,
    /// The registration's number.
    pub(crate) reg: u8,
    /// The side at which it was made.
    pub(crate) hook: Hook,
    /// Whether it had a peek, so that what it saw is kept too.
    pub(crate) saw: bool,
}

impl Note {
    /// The entry of a callback that saw this.
    pub(crate) fn entry(self, seen: Seen) -> Entry
        ensures { result ≡ entry_with self seen }
    {
        Entry {
            index: self.index,
            hook: self.hook,
            event: self.event,
            reg: self.reg,
            seen,
        }
    }
}

/// Whether a callback had a peek.
#[inline(always)]
pub(crate) fn has_seen(seen: &Seen) -> bool
    ensures { result ≡ has_seen seen.now }
{
    !matches!(seen, Seen::Nothing)
}
