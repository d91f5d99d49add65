//! The longest runs of kept positions in a range, in order.

ghost use Rattle.std.specs.Prelude.{◌≡◌};
ghost use Rattle.std.specs.Iterator.{YieldsFirst, item_count};

use crate::buffer::Buffer;
use std::marker::Model;

/// An iterator over the longest runs of kept positions in a range, also above `next`: each by its place and its
/// length, in order. A contract sees the list of those that are left.
#[derive(Drop)]
pub struct Pieces<'a> {
    buffer: &'a Buffer,
    rbuf: u32,
    place: u64,
    left: u32,
}

impl<'a> Model for Pieces<'a> {
    ghost use Rattle.std.specs.Prelude.{ℕ, List};
    ghost use Rattle.reassembly.specs.Kept.{runs_from};
    ghost use Rattle.reassembly.specs.Buffer.{window_of};
    ghost use Rattle.reassembly.specs.Window.{kept_at, IsKept};

    ghost Value = { List (ℕ × ℕ) };

    ghost view = { λ p. runs_from (kept_at (window_of p.buffer.now) p.rbuf) p.place p.left };

    ghost invariant = { λ p. IsKept (window_of p.buffer.now) p.rbuf };
}

impl<'a> Pieces<'a> {
    ghost use Rattle.reassembly.specs.Kept.{runs_from};
    ghost use Rattle.reassembly.specs.Buffer.{window_of};
    ghost use Rattle.reassembly.specs.Window.{kept_at, IsKept};

    /// The runs among the `len` positions from `position` on.
    pub(crate) fn new(buffer: &'a Buffer, rbuf: u32, position: u64, len: u32) -> Self
        requires { IsKept (window_of buffer.now) rbuf }
        ensures { result ≡ runs_from (kept_at (window_of buffer.now) rbuf) position len }
    {
        Pieces {
            buffer,
            rbuf,
            place: position,
            left: len,
        }
    }
}

impl<'a> Iterator for Pieces<'a> {
    type Item = (u64, u32);

    ghost next_gives = { YieldsFirst (λ pieces. pieces) };

    ghost remaining = { item_count (λ pieces. pieces) };

    fn next(&mut self) -> Option<(u64, u32)> {
        let Some(start) = self.buffer.first_kept(self.place, self.rbuf) else {
            self.left = 0;
            return None;
        };
        let skip = start - self.place;
        if skip >= u64::from(self.left) {
            self.left = 0;
            return None;
        }
        let end = self.buffer.run_end(start, self.rbuf);
        let left = self.left - skip as u32;
        let len = (end - start).min(u64::from(left)) as u32;
        self.place = start + u64::from(len);
        self.left = left - len;
        Some((start, len))
    }
}
