//! What a run writes.

ghost use Rattle.std.specs.Prelude.{◌≡◌};
ghost use Rattle.capture_replay.specs.Outcome.{is_forward, output_of};

use words::{Emit, Settings};

/// What a run writes.
#[derive(Clone, Copy, Debug, PartialEq, Eq)]
pub enum Output {
    /// The report of every callback, at the end.
    Report,
    /// The capture without the dropped packets, while it is read.
    Forward,
    /// What was made and counted, at the end: of a capture of so many connections that was made for the run.
    Summary(u32),
}

impl Output {
    /// Whether the packets that pass are written.
    pub(crate) fn is_forward(self) -> bool
        ensures { result ≡ is_forward self }
    {
        match self {
            Output::Forward => true,
            Output::Report | Output::Summary(_) => false,
        }
    }
}

/// What these settings write.
pub(crate) fn output_of(settings: &Settings) -> Output
    ensures { result ≡ output_of settings.now }
{
    match (settings.make, settings.emit) {
        (Some(n), _) => Output::Summary(n),
        (None, Emit::Forward) => Output::Forward,
        (None, Emit::Report | Emit::Summary) => Output::Report,
    }
}
