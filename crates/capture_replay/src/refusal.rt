//! Why the replay of a capture ends before its output is whole.

ghost use Rattle.std.specs.Prelude.{◌≡◌};

use lane_core::LaneError;
use mos_bytes::Failed;
use pcap_source::{CaptureFault, NextError, OpenError};
use report_text::TextError;
use std::alloc::AllocError;
use worker_pool::PoolError;

/// Why a replay ended before its output was whole. Offsets count bytes from the start of the capture.
#[derive(Clone, Copy, Debug, PartialEq, Eq)]
pub enum ReplayError {
    /// The capture is refused at this offset; for a short header the offset is the number of bytes there.
    Capture(CaptureFault, u64),
    /// More than 1,048,576 packets: a further record begins at this offset.
    TooMany(u64),
    /// The callbacks weigh more than 134,217,728: for each of them 32, and the bytes that it saw.
    Heavy,
    /// The capture's source failed.
    ReadFault,
    /// The sink failed.
    WriteFault,
    /// Memory was refused.
    NoMemory,
}

impl From<OpenError> for ReplayError {
    ghost use Rattle.capture_replay.specs.Refusal.{header_refusal};

    ghost from_gives = { λ e r. r ≡ header_refusal e };

    fn from(error: OpenError) -> Self {
        match error {
            OpenError::BadMagic => ReplayError::Capture(CaptureFault::BadMagic, 0),
            OpenError::BadVersion => ReplayError::Capture(CaptureFault::BadVersion, 4),
            OpenError::BadLink => ReplayError::Capture(CaptureFault::BadLink, 20),
            OpenError::ShortHeader(bytes) => ReplayError::Capture(CaptureFault::ShortHeader, bytes),
            OpenError::ReadFault => ReplayError::ReadFault,
        }
    }
}

impl From<NextError> for ReplayError {
    ghost use Rattle.capture_replay.specs.Refusal.{record_refusal};

    ghost from_gives = { λ e r. r ≡ record_refusal e };

    fn from(error: NextError) -> Self {
        ReplayError::from(PoolError::from(error))
    }
}

impl From<TextError> for ReplayError {
    ghost use Rattle.capture_replay.specs.Refusal.{text_refusal};

    ghost from_gives = { λ e r. r ≡ text_refusal e };

    fn from(error: TextError) -> Self {
        match error {
            TextError::WriteFault => ReplayError::WriteFault,
            TextError::NoMemory => ReplayError::NoMemory,
        }
    }
}

// Only what is written while the capture is read fails so; a source's fault is told by the call that met it.
impl From<Failed> for ReplayError {
    ghost use Rattle.capture_replay.specs.declared.refusal.ReplayError.TheVariants.{WriteFault};

    ghost from_gives = { λ _ r. r ≡ WriteFault };

    fn from(_: Failed) -> Self {
        ReplayError::WriteFault
    }
}

impl From<LaneError> for ReplayError {
    ghost use Rattle.capture_replay.specs.Refusal.{lane_refusal};

    ghost from_gives = { λ e r. r ≡ lane_refusal e };

    fn from(error: LaneError) -> Self {
        ReplayError::from(PoolError::from(error))
    }
}

// What ends a run while its capture is read is one table, whether one lane has its packets or several.
impl From<PoolError> for ReplayError {
    ghost use Rattle.capture_replay.specs.Refusal.{pool_refusal};

    ghost from_gives = { λ e r. r ≡ pool_refusal e };

    fn from(error: PoolError) -> Self {
        match error {
            PoolError::TooLong(offset) => ReplayError::Capture(CaptureFault::TooLong, offset),
            PoolError::TooMany(offset) => ReplayError::TooMany(offset),
            PoolError::ReadFault => ReplayError::ReadFault,
            PoolError::WriteFault => ReplayError::WriteFault,
            PoolError::Heavy => ReplayError::Heavy,
            PoolError::NoMemory => ReplayError::NoMemory,
        }
    }
}

impl From<AllocError> for ReplayError {
    ghost use Rattle.capture_replay.specs.declared.refusal.ReplayError.TheVariants.{NoMemory};

    ghost from_gives = { λ _ r. r ≡ NoMemory };

    fn from(_: AllocError) -> Self {
        ReplayError::NoMemory
    }
}
