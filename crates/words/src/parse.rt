//! The words as `clap` reads them.

ghost use Rattle.std.specs.Prelude.{◌≡◌, ◌≢◌, IfOk, false, map, string_bytes};
ghost use Rattle.clap.specs.Words.{first_value, found_of};
ghost use Rattle.words.specs.Words.{UsageMeansNone, chosen_by};
ghost use Rattle.words.specs.Found.{found_settings, has_dashes};

use crate::command::command;
use crate::settings::WordsError;
use clap::ArgMatches;
use clap::error::ErrorKind;
use std::alloc::Global;

/// Whether one of the words is `--`, behind which `clap` would read no options.
pub(crate) fn has_dashes(words: &[String]) -> bool
    ensures { result ≡ has_dashes (map string_bytes words.now) }
{
    for word in words {
        if word.as_str() == "--" {
            return true;
        }
    }
    false
}

/// The matches of the words, none of which is `--`. The values are still to be tested.
pub(crate) fn parsed<'a>(alloc: Global, words: &'a [String]) -> Result<ArgMatches<'a>, WordsError>
    requires { has_dashes (map string_bytes words.now) ≡ false }
    ensures ok { IfOk result (λ m. chosen_by words.now ≡ found_settings (first_value (found_of m))) }
    ensures usage { UsageMeansNone result (chosen_by words.now) }
{
    match command(alloc)?.try_get_matches_from(words) {
        Ok(matches) => Ok(matches),
        Err(error) => Err(refusal(error.kind())),
    }
}

// What an error of this kind comes to.
fn refusal(kind: ErrorKind) -> WordsError
    ensures { result ≡ WordsError.Usage → kind ≢ ErrorKind.OutOfMemory }
{
    match kind {
        ErrorKind::OutOfMemory => WordsError::NoMemory,
        _ => WordsError::Usage,
    }
}
