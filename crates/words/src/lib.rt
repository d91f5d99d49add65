//! The words after the program's name, read as settings by a command of `clap` with five options.
//!
//! Contract: `read_words` answers the settings of the definition, which knows no parser; Usage exactly where the words aren't
//! accepted, unless memory was refused before that was known. `usage_text` is the line that tells refused words.
//! Begin with `specs/Words.antt` and `specs/Offers.antt`, then `src/read.rt` and `src/settings.rt`; `proofs/Reading.antt` is
//! the induction that joins the walk of `clap` to the definition.
//! Tests: `text_tests` (settings).
#![tactic(auto)]

mod command;
mod own;
mod parse;
mod read;
mod settings;
mod usage;
mod values;

pub use own::read_own_words;
pub use read::read_words;
pub use settings::{Emit, Name, Settings, WordsError};
pub use usage::usage_text;
