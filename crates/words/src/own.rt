//! The words of a program whose application is its own.

ghost use Rattle.std.specs.Prelude.{◌≡◌, ◌≤◌, IfOk, IfSome, Some, map, string_bytes};
ghost use Rattle.words.specs.Words.{UsageMeansNone};
ghost use Rattle.words.specs.Own.{own_settings};

use crate::read::read_words;
use crate::settings::{Settings, WordsError};
use std::alloc::Global;

// An application that the words name already: they can't name another, since no option stands twice.
const NAMED: &str = "--app=log";

/// Reads the words of a program whose application is its own: those of `read_words` without `--app`.
///
/// Usage exactly where they aren't accepted, unless memory was refused before that was known. What the settings say of the
/// application means nothing.
pub fn read_own_words(alloc: Global, words: &[String]) -> Result<Settings, WordsError>
    ensures ok { IfOk result (λ s. own_settings (map string_bytes words.now) ≡ Some s) }
    ensures workers { IfOk result (λ s. (1 ≤ s.workers) × (s.workers ≤ 16)) }
    ensures few { IfOk result (λ s. IfSome s.make (λ n. n ≤ 100000)) }
    ensures usage { UsageMeansNone result (own_settings (map string_bytes words.now)) }
{
    let mut all = Vec::new(alloc);
    all.push(String::from_str(alloc, NAMED)?)?;
    for word in words {
        all.push(word.clone()?)?;
    }
    read_words(alloc, all.as_slice())
}
