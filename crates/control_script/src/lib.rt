//! Control scripts: the text that says what is monitored from which packet on, read into commands; and for each packet, how
//! many of them it has to see and may see.
//!
//! Contract: `parse_script` answers the script of the definition, or its first refusal, or that memory was refused;
//! `Script::floor` and `Script::ceil` are the least and the greatest version of a record that begins at a packet.
//! Begin with `specs/Grammar.antt` and `specs/Script.antt`, then `specs/Versions.antt`; in the code with `src/parse.rt` and
//! `src/progress.rt` (line by line), `src/commands.rt` (one line) and `src/script.rt` (what is kept).
//! Tests: `event_tests` (scripts).
#![tactic(auto)]

mod commands;
mod cuts;
mod error;
mod events;
mod laws;
mod lines;
mod nets;
mod parse;
mod progress;
mod registrations;
mod script;
mod settings;
mod stamped;
mod words;

pub use error::ScriptError;
pub use laws::{first_refusal, packets_see_what_they_must};
pub use parse::parse_script;
pub use script::Script;
