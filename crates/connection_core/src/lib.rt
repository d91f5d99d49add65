//! One connection under control, generic in its application and its store of trees: the two phases of a packet with the
//! callbacks of their raises, each with its peek, its entry and its reaction, the drop that is asked, and the changes of the
//! connection's own registrations.
//!
//! Contract: whatever history a `Flow` and its notes stand for before a packet, they stand for that history with the packet
//! after it. `orphan` is a packet of no connection, `silence` the end of a connection that was idle.
//! Begin with `specs/PacketUnderWay.antt` (one callback after the other) and `specs/History.antt` (one packet after the other),
//! then `src/calls.rt`, `src/changes.rt`, `src/flow.rt` and `src/rests.rt`; what is in force is lent as `InForce`
//! (`src/in_force.rt`).
//! Tests: `event_tests` (connections).
#![tactic(auto)]

mod arrival;
mod calls;
mod changes;
mod flow;
mod hearing;
mod in_force;
pub mod laws;
mod ledger;
mod look;
mod orphans;
mod rests;
mod silent;
mod terms;

pub use arrival::Arrived;
pub use flow::{Flow, Step};
pub use in_force::InForce;
pub use ledger::{Counts, Ledger, Notes};
pub use orphans::orphan;
pub use silent::silence;
pub use terms::Terms;
