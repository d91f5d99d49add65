//! Bytes that are held for a while: those that were read and not judged yet, and those that were made and not given.

ghost use Rattle.std.specs.Prelude.{◌≡◌, ◌≤◌, List, ℕ, [], ◌++◌, length, take, min, slice_range};

use mos_bytes::{HeldBytes, copy_front, put_behind};
use std::marker::Model;

// How many bytes the longest head of a block has.
const HEAD_ROOM: usize = 28;

// How many bytes a second total length has, and the head of an option, and the first field of a file.
const WORD_ROOM: usize = 4;

// How many bytes are made at once: a global header.
const MADE_ROOM: usize = 24;

// The head of a block, as far as it is there.
pub(crate) type Head = HeldBytes<HEAD_ROOM>;

// Up to four bytes that are judged once all four are there.
pub(crate) type Word = HeldBytes<WORD_ROOM>;

// Bytes that were made.
#[derive(Drop)]
pub(crate) struct Made {
    bytes: [u8; MADE_ROOM],
    // Those before were given.
    place: usize,
    end: usize,
}

impl Model for Made {
    ghost Value = { List ℕ };

    ghost view = { λ m. slice_range m.bytes m.place m.end };

    ghost invariant = { λ m. (m.place ≤ m.end) × (m.end ≤ 24) };
}

impl Made {
    pub(crate) fn new() -> Self
        ensures { result ≡ [] }
    {
        Made {
            bytes: [0; MADE_ROOM],
            place: 0,
            end: 0,
        }
    }

    // These bytes, none of which was given.
    pub(crate) fn of(bytes: &[u8]) -> Self
        requires { length bytes.now ≤ 24 }
        ensures { result ≡ bytes.now }
    {
        let mut made = [0; MADE_ROOM];
        let end = put_behind(&mut made, 0, bytes);
        Made {
            bytes: made,
            place: 0,
            end,
        }
    }

    pub(crate) fn len(&self) -> usize
        ensures { result ≡ length self.now }
    {
        self.end - self.place
    }

    // Those that weren't given yet.
    pub(crate) fn as_slice(&self) -> &[u8]
        ensures { result.now ≡ self.now }
    {
        &self.bytes[self.place..self.end]
    }

    // Gives as many bytes as `buf` has room for, and answers how many.
    pub(crate) fn give(&mut self, buf: &mut [u8]) -> usize
        ensures count { result ≡ min (length self.old) (length buf.old) }
        ensures bytes { self.old ≡ take result buf.new ++ self.new }
    {
        let count = copy_front(&self.bytes[self.place..self.end], buf);
        self.place += count;
        count
    }
}
