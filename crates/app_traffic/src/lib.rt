//! Two applications that count traffic: accounting (`AcctApp`: packets, bytes, new bytes and the states of both ends) and
//! retransmissions (`RexmitApp`). Each is a table of presets, of what a call adds to or sets in the tally, and of the fields'
//! names.
//!
//! Contract: each is the application of its definition; by the laws in `src/laws.rt` each count is, after any calls, the sum
//! over these calls modulo 2^64, and each state or position that of the last call that tells it.
//! Begin with `specs/Acct.antt`, `specs/Rexmit.antt` and `specs/Laws.antt`, then `src/acct.rt` and `src/rexmit.rt`.
//! Tests: `event_tests` (traffic).
#![tactic(auto)]

mod acct;
mod laws;
mod rexmit;

pub use acct::AcctApp;
pub use laws::{accounts_of_the_calls, retransmissions_of_the_calls};
pub use rexmit::RexmitApp;
