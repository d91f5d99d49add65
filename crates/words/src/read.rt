//! The words, read as settings.

ghost use Rattle.std.specs.Prelude.{◌≡◌, ◌≤◌, IfOk, IfSome, Some, None};
ghost use Rattle.clap.specs.Words.{first_value, found_of};
ghost use Rattle.words.specs.Words.{UsageMeansNone, chosen_by, given, is_value};
ghost use Rattle.words.specs.Found.{all_pass, passes};

use crate::parse::{has_dashes, parsed};
use crate::settings::{Settings, WordsError};
use crate::values::{app_of, emit_of, make_of, script_of, workers_of};
use clap::ArgMatches;
use std::alloc::Global;

/// Reads the words after the program's name: `--x=v` or `--x v`, in any order, each option once.
///
/// Usage exactly where they aren't accepted, unless memory was refused before that was known.
pub fn read_words(alloc: Global, words: &[String]) -> Result<Settings, WordsError>
    ensures ok { IfOk result (λ s. chosen_by words.now ≡ Some s) }
    ensures workers { IfOk result (λ s. (1 ≤ s.workers) × (s.workers ≤ 16)) }
    ensures few { IfOk result (λ s. IfSome s.make (λ n. n ≤ 100000)) }
    ensures usage { UsageMeansNone result (chosen_by words.now) }
{
    if has_dashes(words) {
        return Err(WordsError::Usage);
    }
    let matches = parsed(alloc, words)?;
    if !all_pass(&matches) {
        return Err(WordsError::Usage);
    }
    let app = app_of(matches.get_str("app")).ok_or(WordsError::Usage)?;
    let workers = workers_of(matches.get_str("workers")).ok_or(WordsError::Usage)?;
    let script = script_of(alloc, matches.get_str("script"))?;
    let emit = matches.get_str("emit");
    let make = matches.get_str("make");
    let emit = emit_of(emit, make).ok_or(WordsError::Usage)?;
    let make = make_of(make).ok_or(WordsError::Usage)?;
    Ok(Settings {
        app,
        workers,
        script,
        emit,
        make,
    })
}

// Whether each option that was found has a value: no value is empty or begins with a dash.
fn all_pass(matches: &ArgMatches<'_>) -> bool
    ensures { result ≡ all_pass (first_value (found_of matches.now)) }
{
    passes(matches.get_str("app"))
        && passes(matches.get_str("workers"))
        && passes(matches.get_str("script"))
        && passes(matches.get_str("emit"))
        && passes(matches.get_str("make"))
}

fn passes(value: Option<&str>) -> bool
    ensures { result ≡ passes (given value.entry) }
{
    match value {
        Some(text) => is_value(text.as_bytes()),
        None => true,
    }
}

fn is_value(bytes: &[u8]) -> bool
    ensures { result ≡ is_value bytes.now }
{
    !bytes.is_empty() && bytes[0] != b'-'
}
