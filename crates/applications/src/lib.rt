//! The applications of mos in one place: of each its kind, the word that names it, and the application whose calls it has.
//!
//! Contract: a word names the kind of its row, and each call of a kind is that of its meaning. So the layers above know one
//! application, and no other crate knows how many there are.
//! Begin with `specs/Apps.antt`, then `src/apps.rt`.
//! Tests: `text_tests` (settings); the applications' own in `packet_tests` and `event_tests`.
#![tactic(auto)]

mod apps;

pub use apps::{AppKind, kind_named};
