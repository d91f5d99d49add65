//! Each option's value, as the choice that it makes.

ghost use Rattle.std.specs.Prelude.{◌≡◌, ◌≤◌, IfOk, IfSome, Some, None};
ghost use Rattle.words.specs.Words.{UsageMeansNone, given, app_of, workers_of, script_of, emit_of, make_of};

use crate::settings::{Emit, Name, WordsError};
use applications::{AppKind, kind_named};
use number_text::number_in;
use std::alloc::Global;

// The most workers that a run may have.
const MOST_WORKERS: u64 = 16;

// The most connections that a made capture may have.
const MOST_MADE: u64 = 100_000;

/// The application of this name, or the log.
pub(crate) fn app_of(text: Option<&str>) -> Option<AppKind>
    ensures { result ≡ app_of (given text.entry) }
{
    match text {
        Some(text) => kind_named(text),
        None => Some(AppKind::Log),
    }
}

/// So many workers, or one.
pub(crate) fn workers_of(text: Option<&str>) -> Option<usize>
    ensures which { result ≡ workers_of (given text.entry) }
    ensures within { IfSome result (λ workers. (1 ≤ workers) × (workers ≤ 16)) }
{
    match text {
        Some(text) => {
            let workers = number_in(1, MOST_WORKERS, text.as_bytes())?;
            Some(workers as usize)
        }
        None => Some(1),
    }
}

/// The script's name, of at most 255 bytes, or none.
pub(crate) fn script_of(alloc: Global, text: Option<&str>) -> Result<Option<Name>, WordsError>
    ensures ok { IfOk result (λ script. script_of (given text.entry) ≡ Some script) }
    ensures usage { UsageMeansNone result (script_of (given text.entry)) }
{
    let Some(text) = text else {
        return Ok(None);
    };
    if text.len() > 255 {
        return Err(WordsError::Usage);
    }
    let text = String::from_str(alloc, text)?;
    Ok(Some(Name { text }))
}

/// What is written: a summary where a capture is made, which excludes a choice; else the choice, or the report.
pub(crate) fn emit_of(text: Option<&str>, make: Option<&str>) -> Option<Emit>
    ensures { result ≡ emit_of (given text.entry) (given make.entry) }
{
    match (text, make) {
        (Some(_), Some(_)) => None,
        (None, Some(_)) => Some(Emit::Summary),
        (Some(text), None) => {
            if text == "report" {
                return Some(Emit::Report);
            }
            if text == "forward" {
                return Some(Emit::Forward);
            }
            None
        }
        (None, None) => Some(Emit::Report),
    }
}

/// How many connections are made, where any are.
pub(crate) fn make_of(text: Option<&str>) -> Option<Option<u32>>
    ensures which { result ≡ make_of (given text.entry) }
    ensures few { IfSome result (λ made. IfSome made (λ n. n ≤ 100000)) }
{
    match text {
        Some(text) => {
            let made = number_in(1, MOST_MADE, text.as_bytes())?;
            Some(Some(made as u32))
        }
        None => Some(None),
    }
}
