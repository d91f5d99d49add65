//! What a segment is placed by, and what placing it and noting a FIN answer.

ghost use Rattle.std.specs.Prelude.{◌≡◌, ◌+◌, ◌<◌, ◌^◌};

/// Which byte stays where a segment brings a byte for a position that has one and isn't read yet,
/// that is at or above `next`. RFC 9293 leaves it open, and receivers differ.
#[derive(Clone, Copy, Debug, PartialEq, Eq)]
pub enum Policy {
    /// The byte that was accepted first stays.
    First,
    /// The byte that came last replaces it.
    Last,
}

/// How the bytes of one segment were judged, each by the receiver from before the segment.
#[derive(Clone, Copy, Debug, PartialEq, Eq)]
pub struct Placed {
    /// Bytes that were accepted at a position that had none.
    pub new: u32,
    /// Bytes at positions that were accepted before, or that lie below `next` or below 0.
    pub old: u32,
    /// Old bytes whose position is kept with another byte.
    pub differ: u32,
    /// Bytes beyond the receive window, or at or past a noted FIN.
    pub over: u32,
}

impl Placed {
    /// The answer for a segment whose first bytes, so many, are old, where this is the one for the others.
    #[inline(always)]
    pub(crate) fn behind_old(self, count: u32) -> Self
        requires { count + self.old < 2 ^ 32 }
        ensures { result ≡ record self { old = count + self.old } }
    {
        Placed {
            new: self.new,
            old: count + self.old,
            differ: self.differ,
            over: self.over,
        }
    }
}

/// What became of a FIN (RFC 9293, section 3.10.7.4, eighth step).
#[derive(Clone, Copy, Debug, PartialEq, Eq)]
pub enum FinNote {
    /// It is the first one that may stand where it stands, and is noted.
    Noted,
    /// A FIN was noted at this very position.
    Same,
    /// It lies below 0 or past the allowed edge, bytes were accepted at or past it, or another FIN was noted.
    Refused,
}
