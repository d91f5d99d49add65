//! The names and numbers of events, and definitions of events.

ghost use Rattle.std.specs.Prelude.{◌≡◌, ◌<◌, Ok, Err, IfOk, IfErr, IsTrue, length, slice_index};
ghost use Rattle.std.specs.Char.{is_ascii_alphabetic};
ghost use Rattle.filter_lang.specs.Grammar.{filter};
ghost use Rattle.filter_lang.specs.Shape.{Shape};
ghost use Rattle.forest_versions.specs.Lawful.{may_be_event, is_within};
ghost use Rattle.control_script.specs.declared.stamped.Stamped.{Stamped as StampedOf};
ghost use Rattle.control_script.specs.Grammar.{number_place, under_place, unknown_event, with_filter};
ghost use Rattle.control_script.specs.Reader.{reads, takes, ReadsEvent, RefusesEvent};
ghost use Rattle.control_script.specs.Script.{IfRefused};

use crate::error::ScriptError;
use crate::settings::number;
use crate::stamped::Stamped;
use crate::words::Words;
use app_api::event_named;
use event_trees::EventDef;
use filter_lang::{Expr, FilterError, parse};
use forest_versions::{Command, Stamp};
use number_text::number_in;
use std::alloc::Global;
use std::str::from_utf8;

// Whether a word begins with a letter.
fn begins_with_letter(word: &[u8]) -> bool
    ensures { result ≡ is_ascii_alphabetic (slice_index word.now 0) }
{
    !word.is_empty() && word[0].is_ascii_alphabetic()
}

/// The event that the word names. It goes no further.
pub(crate) fn event(words: &Words<'_>) -> Result<u16, ScriptError>
    ensures ok { IfOk result (λ e. ReadsEvent words.now e) }
    ensures within { IfOk result (λ e. IsTrue (may_be_event e)) }
    ensures some { IfOk result (λ e. 0 < length words.now.word.now) }
    ensures err { IfErr result (λ e. RefusesEvent words.now e) }
{
    match event_named(words.word) {
        Some(event) => Ok(event),
        None => match number_in(1, 255, words.word) {
            Some(number) => Ok(number as u16),
            None => Err(unknown(words)),
        },
    }
}

// Why a word is no event.
fn unknown(words: &Words<'_>) -> ScriptError
    ensures { takes words.now (unknown_event words.now.word.now) ≡ Err result }
{
    if begins_with_letter(words.word) {
        ScriptError::UnknownName(words.line)
    } else {
        ScriptError::Syntax(words.line)
    }
}

// The filter that the text behind the word is.
fn filter_behind(alloc: Global, words: &Words<'_>) -> Result<Expr, ScriptError>
    ensures ok { IfOk result (λ f. filter words.now.rest.now ≡ Ok f) }
    ensures err { IfRefused result (λ e. (make : Shape → StampedOf)
        → with_filter words.now.line make (filter words.now.rest.now) ≡ Err e) }
{
    let line = words.line;
    match from_utf8(words.rest) {
        Err(_) => Err(ScriptError::Syntax(line)),
        Ok(text) => match parse(alloc, text) {
            Ok(filter) => Ok(filter),
            Err(FilterError::UnknownName(_)) => Err(ScriptError::UnknownName(line)),
            Err(FilterError::TooDeep(_)) => Err(ScriptError::TooDeep(line)),
            Err(FilterError::Syntax(_)) => Err(ScriptError::Syntax(line)),
            Err(FilterError::BigNumber(_)) => Err(ScriptError::Syntax(line)),
            Err(FilterError::NoMemory) => Err(ScriptError::NoMemory),
        },
    }
}

/// The definition of an event, from its number on.
#[tactic(auto, unfolding(forest_versions::specs::Lawful::is_within))]
pub(crate) fn definition(
    alloc: Global,
    words: &mut Words<'_>,
    stamp: Stamp,
) -> Result<Stamped, ScriptError>
    ensures ok { IfOk result (λ s. reads words.old (number_place 1 255 (under_place stamp)) ≡ Ok s) }
    ensures within { IfOk result (λ s. IsTrue (is_within s.command)) }
    ensures err { IfRefused result (λ e. reads words.old (number_place 1 255 (under_place stamp)) ≡ Err e) }
{
    let number = number(words, 1, 255)?;
    if !words.is("under") {
        return Err(ScriptError::Syntax(words.line));
    }
    words.advance();
    let parent = event(words)?;
    let filter = filter_behind(alloc, words)?;
    Ok(Stamped {
        stamp,
        command: Command::Event(EventDef {
            number: number as u16,
            parent,
            filter,
        }),
    })
}
