//! The texts that tell why a run ends before its output is whole: the program's lines, and those of the error type.

ghost use Rattle.std.specs.Prelude.{◌≡◌, ◌⊎◌, IfOk, string_bytes};
ghost use Rattle.std.specs.Result.{ForOk};
ghost use Rattle.mos_run.specs.Refusal.{refusal_text, fault_text, error_text, WritesText};

use crate::refusal::{RunError, ScriptFault};
use mos_bytes::Sink;
use pcap_source::CaptureFault;
use std::alloc::{AllocError, Global};
use std::error::Error;
use std::fmt;
use words::usage_text;

// The line that tells a refused line of a script.
#[tactic(auto, unfolding(crate::specs::Refusal::refusal_text))]
fn script_line(alloc: Global, fault: ScriptFault, line: u32) -> Result<String, AllocError>
    ensures { IfOk result (λ text. string_bytes text ≡ refusal_text (RunError.Script fault line)) }
{
    let kind = kind_name(fault);
    format!(in alloc; "mos: script: line {line}: {kind}\n")
}

// The line that tells a refused capture.
#[tactic(auto, unfolding(crate::specs::Refusal::refusal_text))]
fn capture_line(alloc: Global, fault: CaptureFault, offset: u64) -> Result<String, AllocError>
    ensures { IfOk result (λ line. string_bytes line ≡ refusal_text (RunError.Capture fault offset)) }
{
    let fault = fault_name(fault);
    format!(in alloc; "mos: capture: {fault} at {offset}\n")
}

// The line that tells a block of no form.
#[tactic(auto, unfolding(crate::specs::Refusal::refusal_text))]
fn bad_block_line(alloc: Global, offset: u64) -> Result<String, AllocError>
    ensures { IfOk result (λ line. string_bytes line ≡ refusal_text (RunError.BadBlock offset)) }
{
    format!(in alloc; "mos: capture: bad block at {offset}\n")
}

// The line that tells a capture of too many packets.
#[tactic(auto, unfolding(crate::specs::Refusal::refusal_text))]
fn too_many_line(alloc: Global, offset: u64) -> Result<String, AllocError>
    ensures { IfOk result (λ line. string_bytes line ≡ refusal_text (RunError.TooMany offset)) }
{
    format!(in alloc; "mos: too many packets at {offset}\n")
}

// The line that tells a file of too many blocks.
#[tactic(auto, unfolding(crate::specs::Refusal::refusal_text))]
fn too_many_blocks_line(alloc: Global, offset: u64) -> Result<String, AllocError>
    ensures { IfOk result (λ line. string_bytes line ≡ refusal_text (RunError.TooManyBlocks offset)) }
{
    format!(in alloc; "mos: too many blocks at {offset}\n")
}

// The line that tells a section of too many interfaces.
#[tactic(auto, unfolding(crate::specs::Refusal::refusal_text))]
fn too_many_interfaces_line(alloc: Global, offset: u64) -> Result<String, AllocError>
    ensures { IfOk result (λ line. string_bytes line ≡ refusal_text (RunError.TooManyInterfaces offset)) }
{
    format!(in alloc; "mos: too many interfaces at {offset}\n")
}

fn kind_name(fault: ScriptFault) -> &'static str
    ensures { result.now ≡ error_text fault }
{
    match fault {
        ScriptFault::Syntax => "Syntax",
        ScriptFault::UnknownName => "UnknownName",
        ScriptFault::Duplicate => "Duplicate",
        ScriptFault::NoSuchNumber => "NoSuchNumber",
        ScriptFault::TooDeep => "TooDeep",
        ScriptFault::TooMany => "TooMany",
        ScriptFault::StampOrder => "StampOrder",
    }
}

fn fault_name(fault: CaptureFault) -> &'static str
    ensures { result.now ≡ fault_text fault }
{
    match fault {
        CaptureFault::BadMagic => "bad magic",
        CaptureFault::BadVersion => "bad version",
        CaptureFault::BadLink => "bad link type",
        CaptureFault::ShortHeader => "short header",
        CaptureFault::TooLong => "record too long",
    }
}

impl fmt::Display for RunError {
    fn fmt<W: fmt::Write>(&self, f: &mut fmt::Formatter<W>) -> fmt::Result {
        match *self {
            RunError::Usage => f.write_str("words that aren't accepted"),
            RunError::ScriptTooLong => f.write_str("script: too long"),
            RunError::Script(fault, line) => {
                let kind = kind_name(fault);
                write!(f, "script: line {line}: {kind}")
            }
            RunError::Capture(fault, offset) => {
                let fault = fault_name(fault);
                write!(f, "capture: {fault} at {offset}")
            }
            RunError::BadBlock(offset) => write!(f, "capture: bad block at {offset}"),
            RunError::TooMany(offset) => write!(f, "too many packets at {offset}"),
            RunError::TooManyBlocks(offset) => write!(f, "too many blocks at {offset}"),
            RunError::TooManyInterfaces(offset) => write!(f, "too many interfaces at {offset}"),
            RunError::Heavy => f.write_str("log too large"),
            RunError::ReadFault => f.write_str("read fault"),
            RunError::WriteFault => f.write_str("write fault"),
            RunError::NoMemory => f.write_str("no memory"),
        }
    }
}

impl Error for RunError {}

// Writes a text to err. A fault of err changes nothing.
fn write_text<E: Sink>(err: &mut E, text: &str)
    ensures text { WritesText (E.taken err.old) (E.taken err.new) (E.faults err.old) (E.faults err.new) text.now }
    ensures lasts { E.lasting err.new ≡ E.lasting err.old }
{
    let _ = err.write_all(text.as_bytes());
}

// Tells a refusal by its line, or want of memory where there is none for the line. Answers what was told.
#[tactic(auto, unfolding(crate::specs::Refusal::refusal_text))]
fn tell_line<E: Sink>(err: &mut E, line: Result<String, AllocError>, error: RunError) -> RunError
    requires { ForOk line (λ line. string_bytes line ≡ refusal_text error) }
    ensures which { (result ≡ error) ⊎ (result ≡ RunError.NoMemory) }
    ensures text { WritesText (E.taken err.old) (E.taken err.new)
        (E.faults err.old) (E.faults err.new) (refusal_text result) }
    ensures lasts { E.lasting err.new ≡ E.lasting err.old }
{
    match line {
        Ok(line) => {
            write_text(err, line.as_str());
            error
        }
        Err(AllocError) => {
            write_text(err, "mos: no memory\n");
            RunError::NoMemory
        }
    }
}

/// Tells a refusal by its line on `err`. Answers what was told: the refusal itself, or want of memory where there is none for a
/// line with a number. A fault of `err` changes nothing.
#[tactic(auto, unfolding(crate::specs::Refusal::refusal_text))]
pub(crate) fn tell<E: Sink>(alloc: Global, err: &mut E, error: RunError) -> RunError
    ensures which { (result ≡ error) ⊎ (result ≡ RunError.NoMemory) }
    ensures usage { error ≡ RunError.Usage → result ≡ error }
    ensures text { WritesText (E.taken err.old) (E.taken err.new)
        (E.faults err.old) (E.faults err.new) (refusal_text result) }
    ensures lasts { E.lasting err.new ≡ E.lasting err.old }
{
    match error {
        RunError::Script(fault, line) => {
            return tell_line(err, script_line(alloc, fault, line), error);
        }
        RunError::Capture(fault, offset) => {
            return tell_line(err, capture_line(alloc, fault, offset), error);
        }
        RunError::BadBlock(offset) => {
            return tell_line(err, bad_block_line(alloc, offset), error);
        }
        RunError::TooMany(offset) => {
            return tell_line(err, too_many_line(alloc, offset), error);
        }
        RunError::TooManyBlocks(offset) => {
            return tell_line(err, too_many_blocks_line(alloc, offset), error);
        }
        RunError::TooManyInterfaces(offset) => {
            return tell_line(err, too_many_interfaces_line(alloc, offset), error);
        }
        RunError::Usage => write_text(err, usage_text()),
        RunError::ScriptTooLong => write_text(err, "mos: script: too long\n"),
        RunError::Heavy => write_text(err, "mos: log too large\n"),
        RunError::ReadFault => write_text(err, "mos: read fault\n"),
        RunError::WriteFault => write_text(err, "mos: write fault\n"),
        RunError::NoMemory => write_text(err, "mos: no memory\n"),
    }
    error
}
