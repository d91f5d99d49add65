//! Why a capture can't be read on.

ghost use Rattle.std.specs.Prelude.{◌≡◌};

use mos_bytes::Failed;
use std::alloc::AllocError;
use thiserror::Error;

/// The ways in which the bytes of a capture are refused, but for too many packets.
#[derive(Clone, Copy, Debug, PartialEq, Eq)]
pub enum CaptureFault {
    BadMagic,
    BadVersion,
    BadLink,
    ShortHeader,
    TooLong,
}

/// Why a capture's global header was refused.
#[derive(Clone, Copy, Debug, PartialEq, Eq, Error)]
pub enum OpenError {
    /// The first four bytes are no magic number, in either order.
    #[error("bad magic")]
    BadMagic,
    /// The major version isn't 2.
    #[error("bad version")]
    BadVersion,
    /// The link type isn't Ethernet.
    #[error("bad link type")]
    BadLink,
    /// There are fewer than 24 bytes: so many.
    #[error("short header at {0}")]
    ShortHeader(u64),
    /// The source failed.
    #[error("read fault")]
    ReadFault,
}

impl From<Failed> for OpenError {
    ghost use Rattle.pcap_source.specs.declared.errors.OpenError.TheVariants.{ReadFault};

    ghost from_gives = { λ _ e. e ≡ ReadFault };

    fn from(_: Failed) -> Self {
        OpenError::ReadFault
    }
}

/// Why no further record of a capture can be read. Offsets count bytes from the start of the capture.
#[derive(Clone, Copy, Debug, PartialEq, Eq, Error)]
pub enum NextError {
    /// The record at this offset has a captured length over 262,144.
    #[error("record too long at {0}")]
    TooLong(u64),
    /// A further record begins at this offset, behind 1,048,576 others.
    #[error("too many packets at {0}")]
    TooMany(u64),
    /// The source failed.
    #[error("read fault")]
    ReadFault,
    /// There is no memory for the record's bytes.
    #[error("no memory")]
    NoMemory,
}

impl From<Failed> for NextError {
    ghost use Rattle.pcap_source.specs.declared.errors.NextError.TheVariants.{ReadFault};

    ghost from_gives = { λ _ e. e ≡ ReadFault };

    fn from(_: Failed) -> Self {
        NextError::ReadFault
    }
}

impl From<AllocError> for NextError {
    ghost use Rattle.pcap_source.specs.declared.errors.NextError.TheVariants.{NoMemory};

    ghost from_gives = { λ _ e. e ≡ NoMemory };

    fn from(_: AllocError) -> Self {
        NextError::NoMemory
    }
}
