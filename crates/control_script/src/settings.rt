//! Commands of a few words: `unreg`, `rbuf`, `unrule`, `idle`, `policy` and `rule`.

ghost use Rattle.std.specs.Prelude.{◌≡◌, ◌≤◌, ◌<◌, Ok, Err, IfOk, IfErr, OnOk, IsTrue};
ghost use Rattle.forest_versions.specs.Lawful.{is_within};
ghost use Rattle.control_script.specs.Grammar.{number_place, verb_place, end_place, stamped, settings, word_of};
ghost use Rattle.control_script.specs.Reader.{reads, takes, Says, left, ReadsNumber, RefusesNumber, Ends, RefusesEnd, ReadsPolicy, RefusesPolicy, ReadsVerb, RefusesVerb};

use crate::error::ScriptError;
use crate::nets::{read_net, read_ports};
use crate::stamped::Stamped;
use crate::words::Words;
use app_api::Rule;
use forest_versions::{Command, Stamp};
use number_text::number_in;
use reassembly::Policy;

/// The greatest limit of idleness, in seconds.
const MOST_SECONDS: u64 = 4_294_967_295;

/// Reads a number in a range.
pub(crate) fn number(words: &mut Words<'_>, low: u64, high: u64) -> Result<u64, ScriptError>
    ensures ok { IfOk result (λ n. ReadsNumber low high words.old words.new n) }
    ensures low { IfOk result (λ n. low ≤ n) }
    ensures high { IfOk result (λ n. n ≤ high) }
    ensures left { IfOk result (λ n. left words.new < left words.old) }
    ensures err { IfErr result (λ e. RefusesNumber low high words.old e) }
{
    match number_in(low, high, words.word) {
        None => Err(ScriptError::Syntax(words.line)),
        Some(number) => {
            words.advance();
            Ok(number)
        }
    }
}

/// Asks that the line ends.
pub(crate) fn end(words: &Words<'_>) -> Result<(), ScriptError>
    ensures ok { OnOk result (Ends words.now) }
    ensures err { IfErr result (λ e. RefusesEnd words.now e) }
{
    if words.is_end() {
        Ok(())
    } else {
        Err(ScriptError::Syntax(words.line))
    }
}

// A command that ends its line.
fn ended(words: &Words<'_>, stamp: Stamp, command: Command) -> Result<Stamped, ScriptError>
    requires within { IsTrue (is_within command) }
    ensures { Says (reads words.now (end_place (stamped stamp command))) result }
{
    end(words)?;
    Ok(Stamped { stamp, command })
}

/// One of the commands of one number, or `policy`.
#[tactic(auto, unfolding(forest_versions::specs::Lawful::is_within))]
pub(crate) fn setting(words: &mut Words<'_>, stamp: Stamp) -> Result<Stamped, ScriptError>
    ensures { Says (takes words.old (word_of (settings stamp) words.old.word.now)) result }
{
    if words.is("unreg") {
        words.advance();
        let number = number(words, 1, 255)?;
        return ended(words, stamp, Command::Unregister(number as u8));
    }
    if words.is("rbuf") {
        words.advance();
        let bytes = number(words, 1, 1_048_576)?;
        return ended(words, stamp, Command::Buffer(bytes as u32));
    }
    if words.is("unrule") {
        words.advance();
        let number = number(words, 1, 255)?;
        return ended(words, stamp, Command::RemoveRule(number as u8));
    }
    if words.is("idle") {
        words.advance();
        let seconds = number(words, 1, MOST_SECONDS)?;
        return ended(words, stamp, Command::Idle(seconds as u32));
    }
    if words.is("policy") {
        words.advance();
        let policy = policy(words)?;
        return ended(words, stamp, Command::Overlap(policy));
    }
    Err(ScriptError::Syntax(words.line))
}

// Reads a policy.
fn policy(words: &mut Words<'_>) -> Result<Policy, ScriptError>
    ensures ok { IfOk result (λ p. ReadsPolicy words.old words.new p) }
    ensures err { IfErr result (λ e. RefusesPolicy words.old e) }
{
    if words.is("first") {
        words.advance();
        return Ok(Policy::First);
    }
    if words.is("last") {
        words.advance();
        return Ok(Policy::Last);
    }
    Err(ScriptError::Syntax(words.line))
}

// Reads whether a rule allows.
fn verb(words: &mut Words<'_>) -> Result<bool, ScriptError>
    ensures ok { IfOk result (λ allow. ReadsVerb words.old words.new allow) }
    ensures err { IfErr result (λ e. RefusesVerb words.old e) }
{
    if words.is("allow") {
        words.advance();
        return Ok(true);
    }
    if words.is("deny") {
        words.advance();
        return Ok(false);
    }
    Err(ScriptError::Syntax(words.line))
}

/// A rule, from its number on.
#[tactic(auto, unfolding(forest_versions::specs::Lawful::is_within))]
pub(crate) fn rule(words: &mut Words<'_>, stamp: Stamp) -> Result<Stamped, ScriptError>
    ensures ok { IfOk result (λ s. reads words.old (number_place 1 255 (verb_place stamp)) ≡ Ok s) }
    ensures within { IfOk result (λ s. IsTrue (is_within s.command)) }
    ensures err { IfErr result (λ e. reads words.old (number_place 1 255 (verb_place stamp)) ≡ Err e) }
{
    let number = number(words, 1, 255)?;
    let allow = verb(words)?;
    let src = read_net(words)?;
    let dst = read_net(words)?;
    let ports = read_ports(words)?;
    let rule = Rule {
        number: number as u8,
        allow,
        src: src.address,
        src_len: src.len,
        dst: dst.address,
        dst_len: dst.len,
        low: ports.low,
        high: ports.high,
    };
    ended(words, stamp, Command::AddRule(rule))
}
