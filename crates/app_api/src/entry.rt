//! What a callback leaves in the report.

use crate::lists::{Bytes, PieceList};
use native_filters::Hook;

/// What a callback saw of the stream.
#[derive(Debug, Drop)]
pub enum Seen {
    /// It had no peek.
    Nothing,
    /// The bytes from position `at`, after `missed` positions that are no longer kept.
    Next { at: u64, missed: u64, bytes: Bytes },
    /// Each longest run of kept bytes from position `off` on, with its place.
    At { off: u64, pieces: PieceList },
}

/// One callback that was made.
#[derive(Debug, Drop)]
pub struct Entry {
    /// The packet's place in the capture, from 0.
    pub index: u64,
    /// The side at which it was made.
    pub hook: Hook,
    /// The number of the registration's event, which may lie below the raised one.
    pub event: u16,
    /// The registration's number.
    pub reg: u8,
    /// What it saw.
    pub seen: Seen,
}
