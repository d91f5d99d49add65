//! A source over bytes in memory, for tests.

ghost use Rattle.std.specs.Prelude.{◌≡◌, [], ◌-◌, ◌^◌, ◌<◌, ◌≤◌, ◌↔◌, ℕ, List, length, take, drop, min, Some, IfOk, IsErr, Contains};
ghost use Rattle.mos_bytes.specs.Memory.{CountsCall, SourceLasting, SourceState};
ghost use Rattle.mos_bytes.specs.Reads.{BeginsWith, HasAtLeast, ReadGives};

use crate::{Failed, Source, copy_front};
use std::marker::Model;

/// A source that gives bytes from memory, and fails at the listed calls.
#[derive(Drop)]
pub struct MemSource {
    bytes: Vec<u8>,
    place: usize,
    // The most bytes that a read gives.
    piece: usize,
    fails: Vec<u64>,
    calls: u64,
    faults: u64,
}

impl Model for MemSource {
    ghost Value = { SourceState };

    ghost view = { λ s. record {
      left = drop s.place s.bytes.items;
      piece = s.piece;
      fails = s.fails.items;
      calls = s.calls;
      faults = s.faults;
    } };

    ghost invariant = { λ s. (s.place ≤ length s.bytes.items) × (1 ≤ s.piece) };
}

impl MemSource {
    /// A source of these bytes, whose calls fail that `fails` lists by their numbers from 0. A read gives as much as has room.
    pub fn new(bytes: Vec<u8>, fails: Vec<u64>) -> Self
        ensures { result
            ≡ record { left = bytes.items; piece = 2 ^ 64 - 1; fails = fails.items; calls = 0; faults = 0 } }
    {
        MemSource {
            bytes,
            place: 0,
            piece: usize::MAX,
            fails,
            calls: 0,
            faults: 0,
        }
    }

    /// The same source, of which a read gives at most `piece` bytes, as a pipe may. It asks at least 1, and takes no memory.
    pub fn cut(self, piece: usize) -> Self
        requires { 1 ≤ piece }
        ensures { result ≡ record self { piece = piece } }
    {
        MemSource {
            bytes: self.bytes,
            place: self.place,
            piece,
            fails: self.fails,
            calls: self.calls,
            faults: self.faults,
        }
    }
}

impl Source for MemSource {
    ghost left = { λ s. Some s.left };

    ghost faults = { λ s. s.faults };

    // The most bytes that a read gives, and the calls that are to fail.
    ghost Lasting = { SourceLasting };

    ghost lasting = { λ s. record { piece = s.piece; fails = s.fails } };

    // Nothing is left.
    ghost ended = { λ s. s.left ≡ [] };

    // It lends nothing: each byte is given by a read, so that the calls which are to fail are met.

    /// Gives as many bytes as `buf` has room for and are left, and no more than a piece. A listed call fails and gives none.
    fn read(&mut self, buf: &mut [u8]) -> Result<usize, Failed>
        ensures reads { ReadGives (Some self.old.left) (Some self.new.left) result buf.new }
        ensures ended { IfOk result (λ n. n ≡ 0 → 0 < length buf.new → self.new.left ≡ []) }
        ensures counted { CountsCall self.old.calls self.new.calls self.old.faults self.new.faults result }
        ensures listed { IsErr result ↔ Contains self.old.fails self.old.calls }
        ensures count { IfOk result (λ n. n ≡ min (length buf.old) (min self.old.piece (length self.old.left))) }
        ensures piece { self.new.piece ≡ self.old.piece }
        ensures fails { self.new.fails ≡ self.old.fails }
    {
        let call = self.calls;
        self.calls = call.saturating_add(1);
        if self.fails.contains(&call) {
            self.faults = self.faults.saturating_add(1);
            return Err(Failed);
        }
        let end = self.place + self.piece.min(self.bytes.len() - self.place);
        let count = copy_front(&self.bytes[self.place..end], buf);
        self.place += count;
        Ok(count)
    }

    /// All that is left.
    fn at_hand(&self) -> &[u8]
        ensures front { BeginsWith (Some self.now.left) result.now }
        ensures all { result.now ≡ self.now.left }
    {
        &self.bytes[self.place..]
    }

    /// How many bytes are left.
    fn count_at_hand(&self) -> usize
        ensures least { HasAtLeast (Some self.now.left) result }
        ensures all { result ≡ length self.now.left }
    {
        self.bytes.len() - self.place
    }
}
