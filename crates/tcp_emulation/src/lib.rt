//! The two emulated ends of one TCP connection, as tables of states (RFC 9293, section 3.3.2).
//!
//! A monitor between two hosts sees each segment twice: when its sender sent it, and when its receiver takes it. `send_step`
//! moves the sender, `recv_step` the receiver, and `is_over` tells whether both ends are done. No call takes memory.
//! Contract: a step moves its end as the table says, and leaves the other end as it was.
//! Begin with `specs/States.antt`, the tables, and `specs/Ends.antt`; `src/laws.rt` and `specs/Laws.antt` say what the tables
//! mean.
//! Tests: `packet_tests` (ends).
#![tactic(auto)]

mod ends;
pub mod laws;
mod segment;
mod state;

pub use ends::{End, Ends, is_over, recv_step, send_step};
pub use segment::{Change, SegFacts, Side};
pub use state::State;
