//! The first page of a stream, with one run that waits behind a hole.

ghost use Rattle.std.specs.Prelude.{◌≡◌, ℕ, ◌+◌, ◌<◌, ◌≤◌, ◌^◌, length, true, Option, OnErr, IfOk, IsTrue, IsFalse, ◌↔◌};
ghost use Rattle.reassembly.specs.Kept.{IsRunEnd, IsFirstKept};
ghost use Rattle.reassembly.specs.Laying.{HasBytes};
ghost use Rattle.reassembly.specs.Window.{byte_at, kept_at, accepts, IsLaid, IsKept, CanCopy, IsBounded, IsSameWindow};
ghost use Rattle.reassembly.specs.Buffer.{in_order, holed, FillsHole, TakesAll};

use crate::window::Window;
use std::alloc::{AllocError, Global};
use std::mem::replace;

/// Bytes of the first page, with one run that waits behind a hole: those below `next` are accepted, and those from
/// `start` to their end. What stands between is zeros.
#[derive(Drop)]
pub struct Holed {
    pub bytes: Vec<u8>,
    pub next: u16,
    pub start: u16,
}

impl Holed {
    /// Whether a segment has the bytes of the hole and no others, and none of them lies past the limit.
    pub fn is_filled_by(&self, start: u64, len: usize, limit: u64) -> bool
        requires { start + len < 2 ^ 64 }
        ensures { IsTrue result ↔ FillsHole self.now limit start len }
    {
        let end = start + len as u64;
        start == u64::from(self.next) && end == u64::from(self.start) && end <= limit
    }

    /// Copies a segment into the hole, which it fills, and answers the bytes, all of which are accepted now.
    pub fn fill(&mut self, segment: &[u8]) -> Vec<u8>
        requires laid { IsLaid (holed self.old) }
        requires fits { self.old.next + length segment.now ≡ self.old.start }
        ensures { (limit rbuf start : ℕ) → FillsHole self.old limit start (length segment.now)
            → TakesAll limit rbuf start segment.now (holed self.old) (in_order result) }
    {
        self.bytes[usize::from(self.next)..usize::from(self.start)].copy_from_slice(segment);
        let alloc = *self.bytes.allocator();
        replace(&mut self.bytes, Vec::new(alloc))
    }

    /// The window that has these bytes as its first page, and their run. Where memory is refused, they stay.
    pub fn spread(&mut self) -> Result<Box<Window>, AllocError>
        requires { IsLaid (holed self.old) }
        ensures err { OnErr result (self.new ≡ self.old) }
        ensures same { IfOk result (λ window. IsSameWindow (holed self.old) window.value) }
    {
        let alloc = *self.bytes.allocator();
        let mut window = Box::new(alloc, Window::new(alloc))?;
        window.next = u64::from(self.next);
        window
            .runs
            .begin(u64::from(self.start), self.bytes.len() as u64)?;
        window.bytes.begin(&mut self.bytes)?;
        Ok(window)
    }

    /// Whether no byte at `position` or past it is accepted.
    pub fn is_free_from(&self, position: u64) -> bool
        requires { IsLaid (holed self.now) }
        ensures free { IsTrue result → IsBounded (holed self.now) position }
        ensures taken { IsFalse result → (p : ℕ) × (position ≤ p) × (accepts (holed self.now) p ≡ true) }
    {
        self.bytes.len() as u64 <= position
    }

    /// Where the run of kept positions ends that has `position`: `position` itself, where it isn't kept.
    pub fn run_end(&self, position: u64, rbuf: u32) -> u64
        requires { IsLaid (holed self.now) }
        ensures { IsRunEnd (kept_at (holed self.now) rbuf) position result }
    {
        let next = u64::from(self.next);
        if position < next.saturating_sub(u64::from(rbuf)) {
            return position;
        }
        if position < next {
            return next;
        }
        if position < u64::from(self.start) {
            return position;
        }
        position.max(self.bytes.len() as u64)
    }

    /// The first kept position at or above `position`, if there is one.
    pub fn first_kept(&self, position: u64, rbuf: u32) -> Option<u64>
        requires { IsKept (holed self.now) rbuf }
        ensures { IsFirstKept (kept_at (holed self.now) rbuf) position result }
    {
        let next = u64::from(self.next);
        if position < next {
            return Some(position.max(next.saturating_sub(u64::from(rbuf))));
        }
        if position < self.bytes.len() as u64 {
            return Some(position.max(u64::from(self.start)));
        }
        None
    }

    /// Copies the bytes from `position` on, which are accepted, and fills `buf`.
    pub fn copy(&self, position: u64, buf: &mut [u8])
        requires { CanCopy (holed self.now) position (length buf.old) }
        ensures { HasBytes buf.new (length buf.old) (λ i. byte_at (holed self.now) (position + i)) }
    {
        let from = position as usize;
        buf.copy_from_slice(&self.bytes[from..from + buf.len()]);
    }
}
