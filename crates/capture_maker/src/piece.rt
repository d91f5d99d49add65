//! A piece of the capture that is being given: the global header, or one record.

ghost use Rattle.std.specs.Prelude.{◌≡◌, ◌+◌, ◌≤◌, ◌++◌, length};
ghost use Rattle.capture_maker.specs.Frames.{four_bytes, two_bytes};

use mos_bytes::HeldBytes;

// How many bytes the longest record has: its head of 16, headers of 54, a payload of 100.
pub(crate) const ROOM: usize = 170;

/// The bytes of a piece.
pub(crate) type Piece = HeldBytes<ROOM>;

// Puts a number of two bytes, the highest first.
#[tactic(auto, unfolding(crate::specs::Frames::two_bytes))]
pub(crate) fn put_u16(piece: &mut Piece, number: u16)
    requires { length piece.old + 2 ≤ 170 }
    ensures bytes { piece.new ≡ piece.old ++ two_bytes number }
    ensures len { length piece.new ≡ length piece.old + 2 }
{
    piece.put(&number.to_be_bytes());
}

// Puts a number of four bytes, the highest first.
#[tactic(auto, unfolding(crate::specs::Frames::four_bytes))]
pub(crate) fn put_u32(piece: &mut Piece, number: u32)
    requires { length piece.old + 4 ≤ 170 }
    ensures bytes { piece.new ≡ piece.old ++ four_bytes number }
    ensures len { length piece.new ≡ length piece.old + 4 }
{
    piece.put(&number.to_be_bytes());
}
