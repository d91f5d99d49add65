//! The words between the emulation and user code: the built-in events, registrations, callbacks with what they saw, reactions,
//! and the trait `App` of applications.
//!
//! Contract: what an application answers is a function of its tally, the call and the rules, which its `meaning` gives, and
//! that meaning is lawful. `Heard` tells who hears each built-in event.
//! Begin with `specs/App.antt` and `src/app.rt`, then `specs/Reg.antt`. The built-in events are one table, `specs/Events.antt`
//! and `src/events.rt`. `LogApp` (`src/log.rt`, `specs/Log.antt`) is the smallest application.
//! Tests: `packet_tests` (applications).
#![tactic(auto)]

mod answers;
mod app;
mod changes;
mod entry;
pub mod events;
mod hearers;
mod lists;
mod log;
mod reaction;
mod registration;
mod rule;

pub use answers::{fields_of, presets_of};
pub use app::{App, Call, Tally};
pub use changes::{Change1, Changes, MOST_CHANGES};
pub use entry::{Entry, Seen};
pub use events::{
    END, ERROR, LAST_EVENT, NEW_DATA, ORPHAN, PKT_IN, REXMIT, START, STATE, TIMER, allows_hook,
    event_label, event_name, event_named, is_built_in,
};
pub use hearers::{Heard, Hearers};
pub use lists::{ActiveList, Bytes, DropList, EntryList, FieldList, PieceList};
pub use log::LogApp;
pub use reaction::{Reaction, Reason, Verdict};
pub use registration::{Action, PeekSpec, Reg};
pub use rule::Rule;
