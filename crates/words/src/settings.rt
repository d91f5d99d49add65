//! What the words choose, and why there is no choice.

use applications::AppKind;
use std::alloc::{AllocError, AllocFailed};
use std::marker::Model;
use thiserror::Error;

/// What a run writes.
#[derive(Clone, Copy, PartialEq, Eq, Debug)]
pub enum Emit {
    /// The report.
    Report,
    /// The packets that pass, as a capture.
    Forward,
    /// The count of a capture that was made for the run.
    Summary,
}

/// The name of a script: 1 to 255 bytes. Contracts see it as its bytes.
#[derive(Drop, Debug)]
pub struct Name {
    /// The name as it was given.
    pub text: String,
}

impl Model for Name {
    ghost use Rattle.std.specs.Prelude.{ℕ, List, string_bytes};

    ghost Value = { List ℕ };

    ghost view = { λ name. string_bytes name.text };
}

impl Name {
    ghost use Rattle.std.specs.Prelude.{◌≡◌};

    /// The name as text.
    pub fn as_str(&self) -> &str
        ensures { result.now ≡ self.now }
    {
        self.text.as_str()
    }
}

/// What accepted words choose.
#[derive(Drop, Debug)]
pub struct Settings {
    /// The application; the log where none is named.
    pub app: AppKind,
    /// How many workers share the run; 1 where no number is given.
    pub workers: usize,
    /// The script to fetch.
    pub script: Option<Name>,
    /// What is written; a summary exactly where a capture is made.
    pub emit: Emit,
    /// How many connections the capture that is made for the run has, where one is.
    pub make: Option<u32>,
}

/// Why there are no settings.
#[derive(Clone, Copy, PartialEq, Eq, Debug, Error)]
pub enum WordsError {
    /// The words are refused.
    #[error("words that aren't accepted")]
    Usage,
    /// Memory was refused.
    #[error("out of memory")]
    NoMemory,
}

impl From<AllocError> for WordsError {
    ghost use Rattle.std.specs.Prelude.{◌≡◌};
    ghost use Rattle.words.specs.declared.settings.WordsError.TheVariants.{NoMemory};

    ghost from_gives = { λ _ e. e ≡ NoMemory };

    fn from(_error: AllocError) -> WordsError {
        WordsError::NoMemory
    }
}

impl<T: Drop> From<AllocFailed<T>> for WordsError {
    ghost use Rattle.std.specs.Prelude.{◌≡◌};
    ghost use Rattle.words.specs.declared.settings.WordsError.TheVariants.{NoMemory};

    ghost from_gives = { λ _ e. e ≡ NoMemory };

    fn from(_error: AllocFailed<T>) -> WordsError {
        WordsError::NoMemory
    }
}
