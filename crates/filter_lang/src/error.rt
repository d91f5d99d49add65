//! Why a text is no filter.

use std::alloc::{AllocError, AllocFailed};
use thiserror::Error;

/// Why a text is no filter: the first token, from the left, with which no filter goes on.
///
/// Each offset is in bytes. It is that of the token's first byte, or the text's length where the
/// text ends too early.
#[derive(Clone, Copy, PartialEq, Eq, Debug, Error)]
pub enum FilterError {
    /// The token can't stand there, or the bytes there make no token.
    #[error("syntax error at byte {0}")]
    Syntax(usize),
    /// A name that is neither a fact nor a word of the grammar, or the number of no native filter.
    #[error("unknown name at byte {0}")]
    UnknownName(usize),
    /// A number over 2^64 - 1.
    #[error("number too big at byte {0}")]
    BigNumber(usize),
    /// A `!` or `(` inside 32 others that are still open.
    #[error("nested too deep at byte {0}")]
    TooDeep(usize),
    /// There was no memory for the expression.
    #[error("out of memory")]
    NoMemory,
}

impl From<AllocError> for FilterError {
    ghost use Rattle.std.specs.Prelude.{◌≡◌};
    ghost use Rattle.filter_lang.specs.declared.error.FilterError.TheVariants.{NoMemory};

    ghost from_gives = { λ _ e. e ≡ NoMemory };

    fn from(_error: AllocError) -> FilterError {
        FilterError::NoMemory
    }
}

impl<T: Drop> From<AllocFailed<T>> for FilterError {
    ghost use Rattle.std.specs.Prelude.{◌≡◌};
    ghost use Rattle.filter_lang.specs.declared.error.FilterError.TheVariants.{NoMemory};

    ghost from_gives = { λ _ e. e ≡ NoMemory };

    fn from(_error: AllocFailed<T>) -> FilterError {
        FilterError::NoMemory
    }
}
