//! Where packets leave: what an answer lets pass is written.

ghost use Rattle.std.specs.Prelude.{◌≡◌, ◌++◌, IsErr};
ghost use Rattle.mos_bytes.specs.Outside.{Writes};
ghost use Rattle.mos_bytes.specs.Writes.{WriteAdds};
ghost use Rattle.lane_rings.specs.Judging.{lent_answer};
ghost use Rattle.lane_composition.specs.Forwarded.{bytes_out};

use app_api::Verdict;
use lane_rings::LentAnswer;
use mos_bytes::{Failed, Sink};

// Writes one piece behind another.
fn write_both<O: Sink>(head: &[u8], bytes: &[u8], out: &mut O) -> Result<(), Failed>
    ensures bytes { WriteAdds (O.taken out.old) (O.taken out.new) result (head.now ++ bytes.now) }
    ensures writes { Writes O.Sink out.old out.new (IsErr result) }
{
    out.write_all(head)?;
    out.write_all(bytes)
}

/// Writes what an answer lets pass: the record of the packet as it was read, or nothing.
pub(crate) fn write_answer<O: Sink>(answer: &LentAnswer<'_>, out: &mut O) -> Result<(), Failed>
    ensures bytes { WriteAdds (O.taken out.old) (O.taken out.new) result (bytes_out (lent_answer answer.now)) }
    ensures writes { Writes O.Sink out.old out.new (IsErr result) }
{
    match answer.verdict {
        Verdict::Pass => write_both(&answer.packet.head, answer.packet.bytes, out),
        Verdict::Drop(_) => Ok(()),
    }
}
