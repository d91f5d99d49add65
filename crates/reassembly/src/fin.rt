//! What becomes of a FIN, by its position, the edge that is allowed, and whether bytes were accepted at it or past it.

ghost use Rattle.std.specs.Prelude.{◌≡◌};
ghost use Rattle.reassembly.specs.Fin.{natural_of, note_with, fin_with};

use crate::FinNote;

/// The position, where it isn't below 0.
pub fn natural(position: i64) -> Option<u64>
    ensures { result ≡ natural_of position }
{
    if position < 0 {
        None
    } else {
        Some(position as u64)
    }
}

/// What becomes of a FIN at `position`.
pub fn judge(fin: Option<u64>, position: u64, edge: u64, free: bool) -> FinNote
    ensures { result ≡ note_with fin position edge free }
{
    match fin {
        Some(fin) if fin == position => FinNote::Same,
        Some(_) => FinNote::Refused,
        None if position <= edge && free => FinNote::Noted,
        None => FinNote::Refused,
    }
}

/// The FIN that is noted after that answer to one at `position`.
pub fn noted_after(fin: Option<u64>, position: u64, note: FinNote) -> Option<u64>
    ensures { result ≡ fin_with fin position note }
{
    match note {
        FinNote::Noted => Some(position),
        FinNote::Same | FinNote::Refused => fin,
    }
}
