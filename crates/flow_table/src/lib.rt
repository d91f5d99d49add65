//! Which connection a packet belongs to, and which lane: endpoints, the key of two endpoints, the lane of a key, and a table of
//! what is kept for each key, over `indexmap`.
//!
//! Contract: both directions of a connection have one key, and so one lane of the 1 to 16; a `FlowTable` is a finite map from
//! keys to values, whatever the seed of its hashes.
//! Begin with `specs/Key.antt`, `specs/Lane.antt` and `specs/Table.antt`, then `src/table.rt`; `src/laws.rt` says what keys and
//! lanes mean.
//! Tests: `packet_tests` (connections).
#![tactic(auto)]

mod endpoint;
mod hashing;
mod key;
mod lane;
mod laws;
mod pair;
mod table;

pub use endpoint::Endpoint;
pub use hashing::seed_of;
pub use key::{Key, key_of, key_of_head};
pub use lane::{lane_between, lane_of, mix};
pub use laws::{both_directions_have_one_lane, either_order_has_one_key, without_a_key_to_lane_0};
pub use table::FlowTable;
