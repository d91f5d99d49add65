//! The source of the generated capture.

ghost use Rattle.std.specs.Prelude.{◌≡◌, ◌+◌, ◌*◌, ◌<◌, ◌≤◌, ℕ, [], ◌++◌, length, take, drop, min, Some, IsOk, IfOk};
ghost use Rattle.mos_bytes.specs.Causes.{HasCause};
ghost use Rattle.mos_bytes.specs.Reads.{ReadGives};
ghost use Rattle.capture_maker.specs.Made.{MakerState, made, packet_records};

use crate::piece::Piece;
use crate::record::put_record;
use crate::turns::Turns;
use mos_bytes::{Failed, Source, copy_front};
use std::marker::Model;

// The global header: microseconds, version 2.4, records of up to 65,535 bytes, Ethernet.
const HEADER: [u8; 24] = [
    0xa1, 0xb2, 0xc3, 0xd4, 0, 2, 0, 4, 0, 0, 0, 0, 0, 0, 0, 0, 0, 0, 0xff, 0xff, 0, 0, 0, 1,
];

/// A source that gives the generated capture of up to 100,000 connections. It takes no memory and never fails.
#[derive(Drop)]
pub struct Maker {
    count: u32,
    turns: Turns,
    // The index of the next packet.
    index: u32,
    // The header or the record that is being given, and how much of it was given.
    piece: Piece,
    place: usize,
}

impl Model for Maker {
    ghost Value = { MakerState };

    ghost view = { λ m. record { count = m.count; left = drop m.place m.piece ++ packet_records m.index m.turns } };

    ghost invariant = { λ m. record { few : m.count ≤ 100000; within : m.place ≤ length m.piece; rest : m.index + length m.turns ≤ 1000000 } };
}

impl Maker {
    /// The capture of `n` connections, none of whose bytes was given yet. It asks at most 100,000.
    pub fn new(n: u32) -> Maker
        requires { n ≤ 100000 }
        ensures { result ≡ record { count = n; left = made n } }
    {
        let mut piece = Piece::new();
        piece.put(&HEADER);
        Maker {
            count: n,
            turns: Turns::new(n),
            index: 0,
            piece,
            place: 0,
        }
    }

    /// How many bytes the whole capture has, given or not.
    pub fn size(&self) -> u64
        ensures number { result ≡ 24 + 1064 * self.now.count }
        ensures whole { result ≡ length (made self.now.count) }
    {
        24 + 1064 * u64::from(self.count)
    }
}

// Makes the record of the next packet, which has this index, and answers the index behind it. Where no turn is left
// the piece is empty.
fn make_next(piece: &mut Piece, turns: &mut Turns, index: u32) -> u32
    requires { index + length turns.old ≤ 1000000 }
    ensures bytes { packet_records index turns.old ≡ piece.new ++ packet_records result turns.new }
    ensures end { length piece.new ≡ 0 → turns.new ≡ [] }
    ensures rest { result + length turns.new ≤ 1000000 }
{
    piece.clear();
    match turns.take() {
        Some(turn) => {
            put_record(piece, index, turn);
            index + 1
        }
        None => index,
    }
}

// Nothing is at hand, though a record may be there: a made capture is never forwarded, so nobody waits for what is held back.
impl Source for Maker {
    ghost left = { λ m. Some m.left };

    ghost faults = { λ _. 0 };

    // How many connections it makes.
    ghost Lasting = { ℕ };

    ghost lasting = { λ m. m.count };

    // Nothing is left.
    ghost ended = { λ m. m.left ≡ [] };

    /// Gives the rest of a record, or as much of it as `buf` has room for. It never fails.
    fn read(&mut self, buf: &mut [u8]) -> Result<usize, Failed>
        ensures reads { ReadGives (Some self.old.left) (Some self.new.left) result buf.new }
        ensures ended { IfOk result (λ n. n ≡ 0 → 0 < length buf.new → self.new.left ≡ []) }
        ensures cause { HasCause 0 0 result }
        ensures never { IsOk result }
        ensures lasts { self.new.count ≡ self.old.count }
    {
        if self.place == self.piece.len() {
            self.index = make_next(&mut self.piece, &mut self.turns, self.index);
            self.place = 0;
        }
        let count = copy_front(self.piece.from(self.place), buf);
        self.place += count;
        Ok(count)
    }
}
