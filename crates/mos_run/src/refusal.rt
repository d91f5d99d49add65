//! Why a run ends before its output is whole, with the status of each.

ghost use Rattle.std.specs.Prelude.{◌≡◌};
ghost use Rattle.mos_run.specs.Refusal.{status_of};

use capture_replay::ReplayError;
use control_script::ScriptError;
use mos_bytes::FetchError;
use pcap_source::CaptureFault;
use pcapng_source::NgFault;
use std::alloc::AllocError;
use words::WordsError;

/// Why a line of a script is refused.
#[derive(Clone, Copy, Debug, PartialEq, Eq)]
pub enum ScriptFault {
    /// A word, a number or a byte that can't stand there, or a hook at which the event isn't raised or nothing drops.
    Syntax,
    /// A name that is neither a built-in event nor a fact.
    UnknownName,
    /// The event is defined already, or the registration or the rule is there.
    Duplicate,
    /// An event that isn't defined, or a registration or rule that isn't there.
    NoSuchNumber,
    /// The event's path would be longer than 8, or its filter is nested too deep.
    TooDeep,
    /// Command number 4,097.
    TooMany,
    /// `at k` behind an `at` with a greater k.
    StampOrder,
}

/// Why a run ended before its output was whole. Offsets count bytes from the start of the capture; for a pcapng file those
/// of its own refusals are where the block begins in the file, and the others count in the classic form that it gives.
#[derive(Clone, Copy, Debug, PartialEq, Eq)]
pub enum RunError {
    /// The words are refused.
    Usage,
    /// The script has more than 262,144 bytes.
    ScriptTooLong,
    /// The script is refused in this line, from 1; lines over 2^32 - 1 are told as that number.
    Script(ScriptFault, u32),
    /// The capture is refused at this offset; for a short header the offset is the number of bytes there.
    Capture(CaptureFault, u64),
    /// The capture is a pcapng file with a block at this offset that has the form of none.
    BadBlock(u64),
    /// More than 1,048,576 packets: a further record begins at this offset.
    TooMany(u64),
    /// The capture is a pcapng file of more than 4,194,304 blocks: a further one begins at this offset.
    TooManyBlocks(u64),
    /// The capture is a pcapng file with more than 64 interfaces in a section: the block at this offset tells the next.
    TooManyInterfaces(u64),
    /// The callbacks weigh more than 134,217,728: for each of them 32, and the bytes that it saw.
    Heavy,
    /// The capture's source failed, or the shelf.
    ReadFault,
    /// The sink failed.
    WriteFault,
    /// Memory was refused.
    NoMemory,
}

impl From<WordsError> for RunError {
    ghost use Rattle.mos_run.specs.Refusal.{words_refusal};

    ghost from_gives = { λ e r. r ≡ words_refusal e };

    fn from(error: WordsError) -> Self {
        match error {
            WordsError::Usage => RunError::Usage,
            WordsError::NoMemory => RunError::NoMemory,
        }
    }
}

impl From<FetchError> for RunError {
    ghost use Rattle.mos_run.specs.Refusal.{fetch_refusal};

    ghost from_gives = { λ e r. r ≡ fetch_refusal e };

    fn from(error: FetchError) -> Self {
        match error {
            FetchError::TooLong => RunError::ScriptTooLong,
            FetchError::Failed => RunError::ReadFault,
            FetchError::NoMemory => RunError::NoMemory,
        }
    }
}

impl From<ScriptError> for RunError {
    ghost use Rattle.mos_run.specs.Refusal.{script_refusal};

    ghost from_gives = { λ e r. r ≡ script_refusal e };

    fn from(error: ScriptError) -> Self {
        match error {
            ScriptError::Syntax(line) => RunError::Script(ScriptFault::Syntax, line),
            ScriptError::UnknownName(line) => RunError::Script(ScriptFault::UnknownName, line),
            ScriptError::Duplicate(line) => RunError::Script(ScriptFault::Duplicate, line),
            ScriptError::NoSuchNumber(line) => RunError::Script(ScriptFault::NoSuchNumber, line),
            ScriptError::TooDeep(line) => RunError::Script(ScriptFault::TooDeep, line),
            ScriptError::TooMany(line) => RunError::Script(ScriptFault::TooMany, line),
            ScriptError::StampOrder(line) => RunError::Script(ScriptFault::StampOrder, line),
            ScriptError::NoMemory => RunError::NoMemory,
        }
    }
}

impl From<ReplayError> for RunError {
    ghost use Rattle.mos_run.specs.Refusal.{replay_refusal};

    ghost from_gives = { λ e r. r ≡ replay_refusal e };

    fn from(error: ReplayError) -> Self {
        match error {
            ReplayError::Capture(fault, offset) => RunError::Capture(fault, offset),
            ReplayError::TooMany(offset) => RunError::TooMany(offset),
            ReplayError::Heavy => RunError::Heavy,
            ReplayError::ReadFault => RunError::ReadFault,
            ReplayError::WriteFault => RunError::WriteFault,
            ReplayError::NoMemory => RunError::NoMemory,
        }
    }
}

impl From<NgFault> for RunError {
    ghost use Rattle.mos_run.specs.Refusal.{file_refusal};

    ghost from_gives = { λ e r. r ≡ file_refusal e };

    fn from(fault: NgFault) -> Self {
        match fault {
            NgFault::TooManyBlocks(offset) => RunError::TooManyBlocks(offset),
            NgFault::BadBlock(offset) => RunError::BadBlock(offset),
            NgFault::BadVersion(offset) => RunError::Capture(CaptureFault::BadVersion, offset),
            NgFault::TooManyInterfaces(offset) => RunError::TooManyInterfaces(offset),
            NgFault::BadLink(offset) => RunError::Capture(CaptureFault::BadLink, offset),
            NgFault::TooLong(offset) => RunError::Capture(CaptureFault::TooLong, offset),
        }
    }
}

impl From<AllocError> for RunError {
    ghost use Rattle.mos_run.specs.declared.refusal.RunError.TheVariants.{NoMemory};

    ghost from_gives = { λ _ r. r ≡ NoMemory };

    fn from(_: AllocError) -> Self {
        RunError::NoMemory
    }
}

impl RunError {
    /// The exit status of a run that ends so: 1 to 7.
    pub fn status(self) -> u8
        ensures { result ≡ status_of self }
    {
        match self {
            RunError::Usage => 1,
            RunError::ScriptTooLong | RunError::Script(..) => 2,
            RunError::Capture(..) | RunError::BadBlock(_) => 3,
            RunError::ReadFault => 4,
            RunError::WriteFault => 5,
            RunError::NoMemory => 6,
            RunError::TooMany(_)
            | RunError::TooManyBlocks(_)
            | RunError::TooManyInterfaces(_)
            | RunError::Heavy => 7,
        }
    }
}
