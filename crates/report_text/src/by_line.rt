//! A text written line by line, as that of a report is which several threads have made.

ghost use Rattle.std.specs.Prelude.{◌≡◌, ◌==◌, ◌-◌, ◌<◌, ◌≤◌, length, Some, None, IfSome, IfNone, IsErr, OnOk};
ghost use Rattle.std.specs.List.{position};
ghost use Rattle.mos_bytes.specs.Outside.{Writes};
ghost use Rattle.mos_bytes.specs.Writes.{WriteAdds};

use crate::newline::newline_in;
use mos_bytes::{Failed, Sink};

// How long the first line of a text is with its end, if one ends.
fn first_line_of(text: &[u8]) -> Option<usize>
    ensures some { IfSome result (λ len. 0 < len) }
    ensures within { IfSome result (λ len. len ≤ length text.now) }
    ensures line { IfSome result (λ len. position (λ b. b == 10) text.now ≡ Some (len - 1)) }
    ensures none { IfNone result (position (λ b. b == 10) text.now ≡ None) }
{
    match newline_in(text) {
        Some(end) => Some(end + 1),
        None => None,
    }
}

/// Writes a text, each line by one call, and what stands behind the last one by another. At an `Err` the sink holds a front of it.
pub fn write_lines<O: Sink>(out: &mut O, text: &[u8]) -> Result<(), Failed>
    ensures text { WriteAdds (O.taken out.old) (O.taken out.new) result text.now }
    ensures to { Writes O.Sink out.old out.new (IsErr result) }
    ensures still { OnOk result (O.faults out.new ≡ O.faults out.old) }
{
    let mut rest = text;
    while let Some(len) = first_line_of(rest) {
        let (line, behind) = rest.split_at(len);
        out.write_all(line)?;
        rest = behind;
    }
    if !rest.is_empty() {
        out.write_all(rest)?;
    }
    Ok(())
}
