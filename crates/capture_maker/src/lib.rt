//! A source that gives a generated capture: TCP connections that open, send bytes of which some come late and some twice, and
//! close. It takes no memory and never fails.
//!
//! Contract: the bytes that are left in a `Maker` are those of the table of the definitions, 24 + 1,064 n in all for n
//! connections, at most 100,000. By `reader_takes_all_packets` the reader of captures takes all of them; the code itself uses
//! nothing of that reader.
//! Begin with `specs/Table.antt`, `specs/Turns.antt`, `specs/Frames.antt` and `specs/Made.antt`, then `src/maker.rt`.
//! Tests: `text_tests` (made), `run_tests` (runs over it).
#![tactic(auto)]

mod laws;
mod maker;
mod piece;
mod record;
mod step;
mod turns;

pub use laws::{capture_has_its_size, reader_takes_all_packets};
pub use maker::Maker;
