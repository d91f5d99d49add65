//! The lines of a text.

ghost use Rattle.std.specs.Prelude.{◌≡◌, ◌<◌, ◌∷◌, Ok, Err, IfOk, IsTrue, length, not};
ghost use Rattle.std.specs.List.{list_all, find};
ghost use Rattle.std.specs.Option.{option_copied};
ghost use Rattle.filter_lang.specs.Tokens.{is_blank};
ghost use Rattle.forest_versions.specs.Lawful.{is_within};
ghost use Rattle.control_script.specs.Lines.{lines, without_return, is_skipped, is_text};
ghost use Rattle.control_script.specs.Script.{IfRefused, said};

use crate::commands::command;
use crate::cuts::place_of;
use crate::error::ScriptError;
use crate::stamped::Stamped;
use crate::words::{Words, is_blank};
use std::alloc::Global;

/// The first line of a text, and the text behind it.
pub(crate) fn first_line(text: &[u8]) -> (&[u8], &[u8])
    requires some { 0 < length text.now }
    ensures lines { lines text.now ≡ result.0.now ∷ lines result.1.now }
    ensures shorter { length result.1.now < length text.now }
{
    let end = place_of(b'\n', text);
    let behind = if end < text.len() { end + 1 } else { end };
    (&text[..end], &text[behind..])
}

/// A line without one carriage return at its end.
pub(crate) fn without_return(line: &[u8]) -> &[u8]
    ensures { result.now ≡ without_return line.now }
{
    match line.split_last() {
        None => line,
        Some((last, front)) => { if *last == b'\r' { front } else { line } }
    }
}

/// Whether a line is blank or a comment.
pub(crate) fn is_skipped(line: &[u8]) -> bool
    ensures { result ≡ is_skipped line.now }
{
    match first_other(line) {
        None => true,
        Some(byte) => *byte == b'#',
    }
}

// The first byte that is neither a blank nor a tab.
fn first_other(line: &[u8]) -> Option<&u8>
    ensures { option_copied result ≡ find (λ b. not (is_blank b)) line.now }
{
    line.iter().find(|b| !is_blank(**b))
}

// Whether a line is printable ASCII and tabs.
fn is_text(line: &[u8]) -> bool
    ensures { result ≡ list_all is_text line.now }
{
    line.iter().all(|b| (*b >= 32 && *b <= 126) || *b == b'\t')
}

/// The command of a line.
pub(crate) fn said(alloc: Global, n: u32, line: &[u8]) -> Result<Stamped, ScriptError>
    ensures ok { IfOk result (λ s. said n line.now ≡ Ok s) }
    ensures within { IfOk result (λ s. IsTrue (is_within s.command)) }
    ensures err { IfRefused result (λ e. said n line.now ≡ Err e) }
{
    if !is_text(line) {
        return Err(ScriptError::Syntax(n));
    }
    command(alloc, &mut Words::at(n, line))
}
