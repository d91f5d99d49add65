//! Captures in the classic pcap form: a global header of 24 bytes, then records one after another. `Capture` reads them front
//! to back from any source, each into a frame that is used again. `Capture::is_at_hand` tells beforehand whether the next
//! record stands whole among the bytes that the source has at hand. `Capture::next_in` takes a record where it stands among
//! bytes that a source lends, and `Capture::pass_over` then leaves them behind.
//!
//! Contract: `Capture::next` gives the record, the end, the tail or the refusal that the definition finds at that place of the
//! whole list of bytes.
//! Begin with `specs/Capture.antt`, which cuts the whole list of bytes, and `specs/Reading.antt`, then `Capture::next` in
//! `src/capture.rt`; `src/laws.rt` says what the definition means.
//! Tests: `text_tests` (captures).
#![tactic(auto)]

mod capture;
mod errors;
mod frame;
mod header;
mod laws;
mod order;
mod write;

pub use capture::{CAPTURED_LIMIT, Capture, RECORD_LIMIT, Step, WholeRecord};
pub use errors::{CaptureFault, NextError, OpenError};
pub use frame::Frame;
pub use laws::{records_are_the_longest_front, some_records_are_a_capture};
pub use order::Order;
