//! Commands and versions: what is in force after each command of a script.
//!
//! `Control` is what is in force now: events, registrations, overlap policy, receive buffer, rules, and the limit of idleness.
//! `Master` takes commands, keeps the tree of the registrations that are on now, and tells what was in force at every version
//! so far, in time by the logarithm of the number of changes.
//! Contract: after commands each of which may be given, both are what the definition makes of the presets and these commands;
//! `Control::refusal` answers exactly why a command may not be given.
//! Begin with `specs/State.antt`, `specs/Lawful.antt` and `specs/Master.antt`, then `src/control.rt` and `src/master.rt`.
//! Tests: `event_tests` (versions, masters).
#![tactic(auto)]

mod checks;
mod command;
mod control;
mod master;
mod past;
mod ranges;
mod refusal;
mod rules;
mod timeline;
mod trees;

pub use command::{Command, Stamp};
pub use control::Control;
pub use master::Master;
pub use refusal::Refusal;
pub use rules::RuleList;
