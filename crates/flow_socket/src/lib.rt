//! The monitoring socket of one TCP connection: both ends with their window scales, both streams with what their receivers
//! offered, and a mark in each up to which it was read.
//!
//! A packet has two phases: `send` is its step at the sender and the offer of its window, `receive` its step at the receiver.
//! `peek` and `ppeek` show what a receiver keeps.
//! Contract: a `FlowSocket` stands for an emulation, which steps by `sent` and `received` and is read by peeks. So a crate
//! above keeps one `Emulation` in its definitions and one socket in its code.
//! Begin with `specs/Emulation.antt`, then `specs/Direction.antt`, `specs/Segment.antt` and `specs/Peek.antt`; in the code with
//! `src/socket.rt`.
//! Tests: `packet_tests` (sockets).
#![tactic(auto)]

mod answers;
mod direction;
pub mod laws;
mod segment;
mod sequence;
mod shifts;
mod socket;

pub use answers::{Got, Origin, Peeked, Sent};
pub use shifts::Shifts;
pub use socket::FlowSocket;
