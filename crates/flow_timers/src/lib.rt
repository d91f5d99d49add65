//! When a connection is idle by capture time, and a book of names that may become idle.
//!
//! The program uses `Moment` and `is_idle`. `IdleBook` is a library beside it, for a caller that has to tell at any time which
//! of many names is idle; a lane has no need of it, since it asks of one connection at a packet of that connection's key, and
//! of all at the end of the capture.
//! Contract: `is_idle` compares moments in whole numbers; a book is a finite map from names to a last moment and a limit, and
//! `due` takes the idle name with the least deadline out of it.
//! Begin with `specs/Moments.antt` and `specs/Notes.antt`, then `src/book.rt`.
//! Tests: `packet_tests` (idle); `worker_tests` has idle connections in a lane.
#![tactic(auto)]

mod book;
mod deadline;
mod moment;

pub use book::{IdleBook, Noted};
pub use moment::{Moment, is_idle};
