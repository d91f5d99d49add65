//! User-defined events, the tree of a connection's private list of registrations, and the walk over it that gives those that
//! fire.
//!
//! Contract: a `Walk` gives exactly the registrations that a check of each one alone gives, in order. `build` makes the tree of
//! a private list; `edit` makes that of the list with one registration switched on or off.
//! Begin with `specs/Defs.antt`, `specs/Private.antt`, `specs/Canon.antt` and `specs/Fires.antt`, then `src/walk.rt` and
//! `src/forest.rt`. Laws for the crates above are in `src/laws.rt`.
//! Tests: `event_tests` (definitions, trees, forests, walks, random).
#![tactic(auto)]

mod defs;
mod edits;
mod forest;
mod insert;
mod laws;
mod nodes;
mod path;
mod place;
mod placed;
mod private;
mod remove;
mod walk;

pub use defs::{Defs, EventDef};
pub use forest::{build, edit};
pub use laws::{
    heard_where_registered, later_events_change_nothing, one_hearer_is_called, slots_in_order,
};
pub use private::{is_private, switch};
pub use walk::Walk;
