//! Registrations: their hook, whether they are on, what they peek and what they do.

ghost use Rattle.std.specs.Prelude.{◌≡◌, ◌<◌, ◌++◌, [], ◌∷◌, length, Ok, Err, IfOk, IfErr, IsTrue, true};
ghost use Rattle.app_api.specs.Reg.{preset_reg};
ghost use Rattle.forest_versions.specs.Lawful.{is_within, is_reg_within};
ghost use Rattle.control_script.specs.Grammar.{number_place, event_place, dropping, changing};
ghost use Rattle.control_script.specs.Reader.{reads, left, ReadsHook, RefusesHook, ReadsOff, ReadsPeek, RefusesPeek, ReadsAction, RefusesAction, ReadsChange, RefusesChange, ReadsActions, RefusesActions};

use crate::error::ScriptError;
use crate::events::event;
use crate::settings::{end, number};
use crate::stamped::Stamped;
use crate::words::Words;
use app_api::{Action, Change1, Changes, MOST_CHANGES, PeekSpec, Reg};
use forest_versions::{Command, Stamp};
use native_filters::Hook;

// A registration of a script, as far as its line is read: its numbers are in their ranges.
#[derive(Clone, Copy)]
struct ScriptReg {
    reg: Reg,
    ghost within: { IsTrue (is_reg_within reg) },
}

// Reads a hook.
fn hook(words: &mut Words<'_>) -> Result<Hook, ScriptError>
    ensures ok { IfOk result (λ h. ReadsHook words.old words.new h) }
    ensures err { IfErr result (λ e. RefusesHook words.old e) }
{
    if words.is("snd") {
        words.advance();
        return Ok(Hook::Snd);
    }
    if words.is("rcv") {
        words.advance();
        return Ok(Hook::Rcv);
    }
    Err(ScriptError::Syntax(words.line))
}

// A registration of which no more is said.
fn plain_reg(number: u8, event: u16, hook: Hook) -> Reg
    ensures { result ≡ preset_reg number event hook true }
{
    Reg {
        number,
        event,
        hook,
        on: true,
        peek: PeekSpec::Nothing,
        action: Action {
            drop: false,
            changes: Changes::new(),
        },
    }
}

// Reads `off`, if it stands there.
fn off(words: &mut Words<'_>, own: ScriptReg) -> ScriptReg
    ensures { ReadsOff words.old words.new own.reg result.reg }
{
    if words.is("off") {
        words.advance();
        let reg = Reg {
            on: false,
            ..own.reg
        };
        return ScriptReg { reg };
    }
    own
}

// Reads a peek, if one stands there.
fn peek(words: &mut Words<'_>, own: ScriptReg) -> Result<ScriptReg, ScriptError>
    ensures ok { IfOk result (λ r. ReadsPeek words.old words.new own.reg r.reg) }
    ensures err { IfErr result (λ e. RefusesPeek words.old own.reg e) }
{
    if words.is("peek") {
        words.advance();
        let len = number(words, 1, 256)? as u16;
        let reg = Reg {
            peek: PeekSpec::Next { len },
            ..own.reg
        };
        return Ok(ScriptReg { reg });
    }
    if words.is("peekat") {
        words.advance();
        let off = number(words, 0, 1_099_511_627_775)?;
        let len = number(words, 1, 256)? as u16;
        let reg = Reg {
            peek: PeekSpec::At { off, len },
            ..own.reg
        };
        return Ok(ScriptReg { reg });
    }
    Ok(own)
}

// Reads an action.
fn action(words: &mut Words<'_>, own: ScriptReg) -> Result<ScriptReg, ScriptError>
    ensures ok { IfOk result (λ r. ReadsAction words.old words.new own.reg r.reg) }
    ensures left { IfOk result (λ r. left words.new < left words.old) }
    ensures err { IfErr result (λ e. RefusesAction words.old own.reg e) }
{
    if words.is("drop") {
        if own.reg.action.drop {
            return Err(ScriptError::Syntax(words.line));
        }
        words.advance();
        return Ok(dropping(own));
    }
    if words.is("on") {
        return change(words, own, true);
    }
    if words.is("off") {
        return change(words, own, false);
    }
    Err(ScriptError::Syntax(words.line))
}

// With a drop.
fn dropping(own: ScriptReg) -> ScriptReg
    ensures { result.reg ≡ dropping own.reg }
{
    let action = Action {
        drop: true,
        changes: own.reg.action.changes,
    };
    ScriptReg {
        reg: Reg { action, ..own.reg },
    }
}

// With one change more.
fn changing(own: ScriptReg, number: u8, on: bool) -> ScriptReg
    requires room { length own.reg.action.changes < 4 }
    requires number { 0 < number }
    ensures { result.reg ≡ changing own.reg number on }
{
    let changes = longer(&own.reg, Change1 { reg: number, on });
    let action = Action {
        drop: own.reg.action.drop,
        changes,
    };
    ScriptReg {
        reg: Reg { action, ..own.reg },
    }
}

// The changes of a registration, with one more at the end.
fn longer(reg: &Reg, change: Change1) -> Changes
    requires { length reg.now.action.changes < 4 }
    ensures { result ≡ reg.now.action.changes ++ change ∷ [] }
{
    let mut changes = reg.action.changes;
    changes.add(change);
    changes
}

// Reads a change, from its word on.
fn change(words: &mut Words<'_>, own: ScriptReg, on: bool) -> Result<ScriptReg, ScriptError>
    requires some { 0 < length words.old.word.now }
    ensures ok { IfOk result (λ r. ReadsChange on words.old words.new own.reg r.reg) }
    ensures left { IfOk result (λ r. left words.new < left words.old) }
    ensures err { IfErr result (λ e. RefusesChange on words.old own.reg e) }
{
    if own.reg.action.changes.as_slice().len() >= MOST_CHANGES {
        return Err(ScriptError::Syntax(words.line));
    }
    words.advance();
    let number = number(words, 1, 255)?;
    Ok(changing(own, number as u8, on))
}

// Reads `do` and one action or more, if it stands there, to the end.
fn actions(words: &mut Words<'_>, own: ScriptReg) -> Result<ScriptReg, ScriptError>
    ensures ok { IfOk result (λ r. ReadsActions words.old own.reg r.reg) }
    ensures err { IfErr result (λ e. RefusesActions words.old own.reg e) }
{
    if !words.is("do") {
        end(words)?;
        return Ok(own);
    }
    words.advance();
    let mut next = action(words, own)?;
    'actions: while !words.is_end() {
        next = action(words, next)?;
    }
    Ok(next)
}

/// A registration, from its number on.
#[tactic(auto, unfolding(forest_versions::specs::Lawful::is_within))]
pub(crate) fn registration(words: &mut Words<'_>, stamp: Stamp) -> Result<Stamped, ScriptError>
    ensures ok { IfOk result (λ s. reads words.old (number_place 16 255 (event_place stamp)) ≡ Ok s) }
    ensures within { IfOk result (λ s. IsTrue (is_within s.command)) }
    ensures err { IfErr result (λ e. reads words.old (number_place 16 255 (event_place stamp)) ≡ Err e) }
{
    let number = number(words, 16, 255)?;
    let event = event(words)?;
    words.advance();
    let hook = hook(words)?;
    let reg = plain_reg(number as u8, event, hook);
    let own = off(words, ScriptReg { reg });
    let own = peek(words, own)?;
    let own = actions(words, own)?;
    Ok(Stamped {
        stamp,
        command: Command::Register(own.reg),
    })
}
