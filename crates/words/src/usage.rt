//! The text that tells refused words.

ghost use Rattle.std.specs.Prelude.{◌≡◌};
ghost use Rattle.words.specs.Usage.{usage_text};

use applications::around_app_words;

/// The line that tells refused words, with its newline: every option that the program is to have.
pub fn usage_text() -> &'static str
    ensures { result.now ≡ usage_text }
{
    around_app_words!(
        "mos: usage: mos [--app ",
        "] [--workers N] [--script NAME] [--emit report|forward] [--make N]\n"
    )
}
