//! Where whole contents come from, by name.

ghost use Rattle.std.specs.Prelude.{◌≡◌, ◌<◌, ◌≤◌, ℕ, List, length, Err, IfOk, OnOk, IsErrOf};
ghost use Rattle.std.specs.declared.option.Option.{Option};
ghost use Rattle.std.specs.Io.KnownBytes.{Consumes, IsAtEnd};
ghost use Rattle.mos_bytes.specs.Causes.{HasCauseOf};
ghost use Rattle.mos_bytes.specs.Fetches.{IsContentWithin, IsLonger, ReadsOver};

use crate::{Failed, Source, fill};
use std::alloc::{AllocError, Global};
use std::error::Error;
use std::fmt;

// How many bytes of a content are read at once.
const PIECE: usize = 4096;

/// Why a content wasn't fetched.
#[derive(Clone, Copy, Debug, PartialEq, Eq)]
pub enum FetchError {
    /// A fault of the outside, which the shelf has counted. A name that isn't there is one.
    Failed,
    /// The content is longer than the limit.
    TooLong,
    /// Memory for the content was refused.
    NoMemory,
}

impl fmt::Display for FetchError {
    fn fmt<W: fmt::Write>(&self, f: &mut fmt::Formatter<W>) -> fmt::Result {
        f.write_str(match self {
            FetchError::Failed => "fault of the outside",
            FetchError::TooLong => "too long",
            FetchError::NoMemory => "no memory",
        })
    }
}

impl Error for FetchError {}

impl From<Failed> for FetchError {
    ghost use Rattle.mos_bytes.specs.declared.shelf.FetchError.TheVariants.{Failed as FetchFailed};

    ghost from_gives = { λ _ e. e ≡ FetchFailed };

    fn from(_: Failed) -> Self {
        FetchError::Failed
    }
}

impl From<AllocError> for FetchError {
    ghost use Rattle.mos_bytes.specs.declared.shelf.FetchError.TheVariants.{NoMemory};

    ghost from_gives = { λ _ e. e ≡ NoMemory };

    fn from(_: AllocError) -> Self {
        FetchError::NoMemory
    }
}

/// Contents by name, as scripts in a folder.
pub trait Shelf {
    // The content of this name, where the shelf tells it.
    ghost content: { Self → List ℕ → Option (List ℕ) };

    // How often the shelf has failed. It never falls.
    ghost faults: { Self → ℕ };

    // What no call changes, as which object a shelf borrows: the unit where there is nothing to say.
    ghost Lasting: { Type 0 };

    ghost lasting: { Self → Lasting };

    /// Gives the whole content of this name, where it has at most `limit` bytes. No call changes a content that is told.
    fn fetch(&mut self, alloc: Global, name: &str, limit: usize) -> Result<Vec<u8>, FetchError>
        ensures whole { IfOk result (λ bytes. IsContentWithin limit (content self.old name.now) bytes.items) }
        ensures too_long { result ≡ Err FetchError.TooLong → IsLonger (content self.old name.now) limit }
        ensures ok { OnOk result (faults self.new ≡ faults self.old) }
        ensures kept { (other : List ℕ) → content self.new other ≡ content self.old other }
        ensures cause { HasCauseOf (faults self.old) (faults self.new) (IsErrOf result FetchError.Failed) }
        ensures lasts { lasting self.new ≡ lasting self.old };
}

// Reads a source to its end, where it has at most `limit` bytes left. It tells how many bytes came before the answer was known.
pub(crate) fn read_whole<S: Source>(
    alloc: Global,
    source: &mut S,
    limit: usize,
    came: &mut usize,
) -> Result<Vec<u8>, FetchError>
    ensures whole { IfOk result (λ bytes. Consumes (S.left source.old) (S.left source.new) bytes.items
        × IsAtEnd (S.left source.new)) }
    ensures within { IfOk result (λ bytes. length bytes.items ≤ limit) }
    ensures too_long { result ≡ Err FetchError.TooLong
        → ReadsOver (S.left source.old) (S.left source.new) limit came.new }
    ensures over { result ≡ Err FetchError.TooLong → limit < came.new }
    ensures came { IfOk result (λ bytes. came.new ≡ length bytes.items) }
    ensures cause { HasCauseOf (S.faults source.old) (S.faults source.new) (IsErrOf result FetchError.Failed) }
    ensures lasts { S.lasting source.new ≡ S.lasting source.old }
{
    let mut bytes = Vec::new(alloc);
    let mut piece = [0; PIECE];
    *came = 0;
    loop {
        let count = fill(source, &mut piece)?;
        *came = bytes.len() + count;
        if count > limit - bytes.len() {
            return Err(FetchError::TooLong);
        }
        bytes.extend_from_slice(&piece[..count])?;
        if count < PIECE {
            return Ok(bytes);
        }
    }
}
