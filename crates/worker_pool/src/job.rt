//! A run on several lanes: what is asked, and what it ends with.

ghost use Rattle.std.specs.Prelude.{◌≡◌};

use crate::versions::VersionList;
use control_script::Script;
use lane_core::{KeptRecords, LaneError};
use mos_bytes::Failed;
use pcap_source::NextError;
use report_text::{RecordList, Totals};
use std::alloc::{AllocError, AllocFailed};
use thiserror::Error;

/// What a run on several lanes is to do.
#[derive(Drop)]
pub struct Job<'a, A> {
    pub app: A,
    pub script: &'a Script,
    /// How many lanes share the packets: 1 to 16.
    pub workers: usize,
}

/// What a run on several lanes ends with.
#[derive(Debug, Drop)]
pub struct LanesEnd {
    /// The connections and orphans of all lanes, in order of name.
    pub records: RecordList,
    /// The version of each.
    pub versions: VersionList,
    pub totals: Totals,
}

/// What a run on several lanes ends with where its records stay as the lanes kept them.
#[derive(Drop)]
pub struct KeptLanes {
    /// The connections and orphans of all lanes, in order of name.
    pub records: KeptRecords,
    /// The version of each.
    pub versions: VersionList,
    pub totals: Totals,
}

/// Why a run on several lanes ended before it was whole. Offsets count bytes from the start of the capture.
#[derive(Clone, Copy, Debug, PartialEq, Eq, Error)]
pub enum PoolError {
    /// The captured length of the record at this offset is over 262,144.
    #[error("record too long at {0}")]
    TooLong(u64),
    /// More than 1,048,576 packets: a further record begins at this offset.
    #[error("too many packets at {0}")]
    TooMany(u64),
    /// The capture's source failed.
    #[error("read fault")]
    ReadFault,
    /// What is forwarded can't be written: its sink failed.
    #[error("write fault")]
    WriteFault,
    /// The callbacks of all lanes weigh more than 134,217,728: for each of them 32, and the bytes that it saw.
    #[error("log too large")]
    Heavy,
    /// Memory was refused.
    #[error("no memory")]
    NoMemory,
}

impl From<NextError> for PoolError {
    ghost use Rattle.worker_pool.specs.Refused.{read_refusal};

    ghost from_gives = { λ e r. r ≡ read_refusal e };

    fn from(error: NextError) -> Self {
        match error {
            NextError::TooLong(offset) => PoolError::TooLong(offset),
            NextError::TooMany(offset) => PoolError::TooMany(offset),
            NextError::ReadFault => PoolError::ReadFault,
            NextError::NoMemory => PoolError::NoMemory,
        }
    }
}

impl From<LaneError> for PoolError {
    ghost use Rattle.worker_pool.specs.Refused.{lane_refusal};

    ghost from_gives = { λ e r. r ≡ lane_refusal e };

    fn from(error: LaneError) -> Self {
        match error {
            LaneError::NoMemory => PoolError::NoMemory,
            LaneError::Heavy => PoolError::Heavy,
        }
    }
}

impl From<Failed> for PoolError {
    ghost use Rattle.worker_pool.specs.declared.job.PoolError.TheVariants.{WriteFault};

    ghost from_gives = { λ _ r. r ≡ WriteFault };

    fn from(_: Failed) -> Self {
        PoolError::WriteFault
    }
}

impl From<AllocError> for PoolError {
    ghost use Rattle.worker_pool.specs.declared.job.PoolError.TheVariants.{NoMemory};

    ghost from_gives = { λ _ r. r ≡ NoMemory };

    fn from(_: AllocError) -> Self {
        PoolError::NoMemory
    }
}

impl<T: Drop> From<AllocFailed<T>> for PoolError {
    ghost use Rattle.worker_pool.specs.declared.job.PoolError.TheVariants.{NoMemory};

    ghost from_gives = { λ _ r. r ≡ NoMemory };

    fn from(_: AllocFailed<T>) -> Self {
        PoolError::NoMemory
    }
}
