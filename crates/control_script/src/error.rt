//! Why a text is no script.

use std::alloc::{AllocError, AllocFailed};
use thiserror::Error;

/// Why a text is no script: its first line that is refused, from 1, and why. Lines over 2^32 - 1 are told as that
/// number.
#[derive(Clone, Copy, PartialEq, Eq, Debug, Error)]
pub enum ScriptError {
    /// A word, a number or a byte that can't stand there, or a hook at which the event isn't raised or nothing drops.
    #[error("syntax error in line {0}")]
    Syntax(u32),
    /// A name that is neither a built-in event nor a fact.
    #[error("unknown name in line {0}")]
    UnknownName(u32),
    /// The event is defined already, or the registration or the rule is there.
    #[error("number taken in line {0}")]
    Duplicate(u32),
    /// An event that isn't defined, or a registration or rule that isn't there.
    #[error("no such number in line {0}")]
    NoSuchNumber(u32),
    /// The event's path would be longer than 8, or its filter is nested too deep.
    #[error("nested too deep in line {0}")]
    TooDeep(u32),
    /// Command number 4,097.
    #[error("too many commands in line {0}")]
    TooMany(u32),
    /// `at k` behind an `at` with a greater k.
    #[error("packet number falls in line {0}")]
    StampOrder(u32),
    /// There was no memory for the script.
    #[error("out of memory")]
    NoMemory,
}

impl From<AllocError> for ScriptError {
    ghost use Rattle.std.specs.Prelude.{◌≡◌};
    ghost use Rattle.control_script.specs.declared.error.ScriptError.TheVariants.{NoMemory};

    ghost from_gives = { λ _ e. e ≡ NoMemory };

    fn from(_error: AllocError) -> ScriptError {
        ScriptError::NoMemory
    }
}

impl<T: Drop> From<AllocFailed<T>> for ScriptError {
    ghost use Rattle.std.specs.Prelude.{◌≡◌};
    ghost use Rattle.control_script.specs.declared.error.ScriptError.TheVariants.{NoMemory};

    ghost from_gives = { λ _ e. e ≡ NoMemory };

    fn from(_error: AllocFailed<T>) -> ScriptError {
        ScriptError::NoMemory
    }
}
