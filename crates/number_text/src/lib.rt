//! Decimal numbers as texts write them: a number within a range, and one part of a dotted address. Words, filters and control
//! scripts are read with it.
//!
//! Contract: `number_in` answers the number of a text exactly where that is decimal digits, the first of several not 0, and
//! lies in the range; `octet` that of one to three digits, where it is at most 255.
//! Begin with `specs/Numbers.antt`, which is all of it.
//! Tests: none of its own; `event_tests` (scripts) and `text_tests` (words, filters) read numbers by it.
#![tactic(auto)]

mod numbers;

pub use numbers::{number_in, octet};
