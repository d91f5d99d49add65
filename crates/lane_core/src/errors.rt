//! Why a lane fails.

use std::alloc::AllocError;

/// Why a lane failed. It takes no packet and no command any more.
#[derive(Clone, Copy, Debug, PartialEq, Eq)]
pub enum LaneError {
    NoMemory,
    /// Its callbacks weigh more than 134,217,728: for each of them 32, and the bytes that it saw.
    Heavy,
}

impl From<AllocError> for LaneError {
    ghost use Rattle.std.specs.Prelude.{◌≡◌};
    ghost use Rattle.lane_core.specs.declared.errors.LaneError.TheVariants.{NoMemory};

    ghost from_gives = { λ _ e. e ≡ NoMemory };

    fn from(_: AllocError) -> LaneError {
        LaneError::NoMemory
    }
}
