//! What is told of a run over a capture that was made for it.

ghost use Rattle.std.specs.Prelude.{◌≡◌, ◌⊎◌, ◌*◌, ◌+◌, IfOk, IfErr, IsErrOf, string_bytes};
ghost use Rattle.mos_bytes.specs.Writes.{WriteAdds};
ghost use Rattle.mos_bytes.specs.Outside.{Writes};
ghost use Rattle.capture_replay.specs.Summary.{made_line, summary_text};

use crate::ReplayError;
use mos_bytes::Sink;
use report_text::{Totals, write_totals};
use std::alloc::{AllocError, Global};

// The line of a made capture: its connections, packets and bytes.
fn made_line(alloc: Global, n: u32) -> Result<String, AllocError>
    ensures { IfOk result (λ line. string_bytes line ≡ made_line n) }
{
    let packets = 10 * u64::from(n);
    let bytes = 24 + 1064 * u64::from(n);
    format!(in alloc; "made {n} packets {packets} bytes {bytes}\n")
}

/// Writes the line of a made capture of n connections, and the last line of its report.
#[tactic(auto, unfolding(crate::specs::Summary::summary_text))]
pub(crate) fn write_summary<O: Sink>(
    alloc: Global,
    out: &mut O,
    n: u32,
    totals: &Totals,
) -> Result<(), ReplayError>
    ensures text { WriteAdds (O.taken out.old) (O.taken out.new) result (summary_text n totals.now) }
    ensures only { IfErr result (λ e. (e ≡ ReplayError.WriteFault) ⊎ (e ≡ ReplayError.NoMemory)) }
    ensures to { Writes O.Sink out.old out.new (IsErrOf result ReplayError.WriteFault) }
{
    let line = made_line(alloc, n)?;
    out.write_all(line.as_bytes())?;
    write_totals(alloc, out, totals)?;
    Ok(())
}
