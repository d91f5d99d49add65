//! The callbacks of one record, kept in little memory: a list of notes of one size, and what was seen of the stream apart from
//! them, since most callbacks see nothing.
//!
//! Contract: a `CallbackLog` is the list of its entries. `push` adds one at its end, or leaves the log as it was where memory
//! is refused; `callbacks` lends them in order, and `into_list` makes an `EntryList` of them.
//! Begin with `src/log.rt` and `src/walk.rt`; `specs/Entries.antt` says which entries the notes stand for.
//! Tests: none of its own; connections in `event_tests` and lanes in `worker_tests` keep their callbacks in it.
#![tactic(auto)]

mod log;
mod note;
mod walk;

pub use log::CallbackLog;
pub use walk::{Callback, Callbacks};
