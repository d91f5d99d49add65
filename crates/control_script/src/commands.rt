//! The command of a line.

ghost use Rattle.std.specs.Prelude.{◌≡◌, Ok, Err, IfOk, IsTrue};
ghost use Rattle.forest_versions.specs.Lawful.{is_within};
ghost use Rattle.control_script.specs.Grammar.{line_place, command_place};
ghost use Rattle.control_script.specs.Reader.{reads};
ghost use Rattle.control_script.specs.Script.{IfRefused};

use crate::error::ScriptError;
use crate::events::definition;
use crate::registrations::registration;
use crate::settings::{number, rule, setting};
use crate::stamped::Stamped;
use crate::words::Words;
use forest_versions::Stamp;
use std::alloc::Global;

/// The last packet that a stamp may name.
const LAST_STAMP: u64 = 4_294_967_295;

/// A line's stamp and command. Without a stamp it is for packet 0 on.
pub(crate) fn command(alloc: Global, words: &mut Words<'_>) -> Result<Stamped, ScriptError>
    ensures ok { IfOk result (λ s. reads words.old line_place ≡ Ok s) }
    ensures within { IfOk result (λ s. IsTrue (is_within s.command)) }
    ensures err { IfRefused result (λ e. reads words.old line_place ≡ Err e) }
{
    if words.is("at") {
        words.advance();
        let from = number(words, 0, LAST_STAMP)?;
        return unstamped(alloc, words, Stamp::At(from));
    }
    if words.is("live") {
        words.advance();
        return unstamped(alloc, words, Stamp::Live);
    }
    unstamped(alloc, words, Stamp::At(0))
}

// The command behind a stamp.
fn unstamped(alloc: Global, words: &mut Words<'_>, stamp: Stamp) -> Result<Stamped, ScriptError>
    ensures ok { IfOk result (λ s. reads words.old (command_place stamp) ≡ Ok s) }
    ensures within { IfOk result (λ s. IsTrue (is_within s.command)) }
    ensures err { IfRefused result (λ e. reads words.old (command_place stamp) ≡ Err e) }
{
    if words.is("event") {
        words.advance();
        return definition(alloc, words, stamp);
    }
    if words.is("reg") {
        words.advance();
        return registration(words, stamp);
    }
    if words.is("rule") {
        words.advance();
        return rule(words, stamp);
    }
    setting(words, stamp)
}
