//! What filters and applications may know of a packet, and the six native filters.
//!
//! `Facts` has the 20 facts of one raise. `NativeBook` holds the six functions that the caller hands in, each a `Native`, which
//! keeps that it answers what the native filter of its number is. `src/plain.rt` has functions that may be handed in.
//! Contract: `Facts::get` gives the fact at a place, and `NativeBook::call` what the native filter of a number says of the
//! facts.
//! Begin with `specs/Facts.antt` and `specs/Native.antt`, then `src/stored.rt` and `src/book.rt`.
//! Tests: `packet_tests` (filters), `event_tests` (walks with them).
#![tactic(auto)]

mod book;
mod facts;
mod plain;
mod stored;

pub use book::NativeBook;
pub use facts::{Facts, Hook};
pub use plain::{
    has_differing_bytes, has_system_port, is_ending, is_keep_alive, is_opening, is_private_traffic,
};
pub use stored::Native;
