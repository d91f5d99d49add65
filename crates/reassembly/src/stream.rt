//! A stream: its buffer, its FIN, and the size of its receive buffer.

ghost use Rattle.std.specs.Prelude.{◌≡◌, ℕ, ◌+◌, ◌-◌, ◌<◌, ◌≤◌, ◌^◌, ℤ, pos, neg_ℤ, ◌≤ℤ◌, ◌<ℤ◌, ◌++◌, min, length, drop, OnOk, OnErr, IfOk, Option, None};
ghost use Rattle.reassembly.specs.Receiver.{no_bytes, low_of};
ghost use Rattle.reassembly.specs.Kept.{bytes_from, runs_from, positions_in, AreWhole};
ghost use Rattle.reassembly.specs.Segment.{accept_above, counts_above};
ghost use Rattle.reassembly.specs.Fin.{note_of, noted};
ghost use Rattle.reassembly.specs.View.{StandsFor, ForReceiver, ForKept, ForWide, StandsAfter, StandsAfterWide};

use crate::buffer::Buffer;
use crate::fin::{judge, natural, noted_after};
use crate::start::{limit, start_of};
use crate::{FinNote, Pieces, Placed, Policy};
use std::alloc::{AllocError, Global};
use std::marker::Model;

/// The bytes that the receiver of one direction of a connection accepts and keeps.
///
/// Positions count the bytes of the stream from 0 on, the one after the SYN (RFC 9293, section 3.4). A contract sees
/// a stream as its next position, its kept bytes, its FIN and the size `rbuf` of its receive buffer, and says for
/// whichever receiver the stream stood for before a call, which one it stands for after. What that receiver has offered
/// isn't stored here: its owner keeps the offer, and tells `place` how wide the window is by it.
#[derive(Drop)]
pub struct Stream {
    buffer: Buffer,
    fin: Option<u64>,
    rbuf: u32,

    // That of the buffer, read with no look at its form.
    next: u64,
}

impl Model for Stream {
    ghost use Rattle.reassembly.specs.View.{StreamView};
    ghost use Rattle.reassembly.specs.Buffer.{window_of};
    ghost use Rattle.reassembly.specs.Window.{view_of, IsWhole};

    ghost Value = { StreamView };

    ghost view = { λ s. view_of (window_of s.buffer) s.fin s.rbuf };

    ghost use Rattle.std.specs.Prelude.{◌≡◌};

    ghost invariant = { λ s. IsWhole (window_of s.buffer) s.fin s.rbuf × (s.next ≡ (window_of s.buffer).next) };
}

impl Stream {
    /// A stream with nothing accepted and a receive buffer of `rbuf` bytes. It takes no memory before the first byte.
    pub fn new(alloc: Global, rbuf: u32) -> Self
        requires least { 1 ≤ rbuf }
        requires most { rbuf ≤ 1048576 }
        ensures stands { StandsFor result no_bytes }
        ensures rbuf { result.rbuf ≡ rbuf }
        ensures next { result.next ≡ 0 }
        ensures fin { result.fin ≡ None }
    {
        Stream {
            buffer: Buffer::new(alloc),
            fin: None,
            rbuf,
            next: 0,
        }
    }

    /// The least position that wasn't accepted: RCV.NXT, as a position.
    #[inline(always)]
    pub fn next(&self) -> u64
        ensures { result ≡ self.now.next }
    {
        self.next
    }

    /// The position of the FIN, once it is noted.
    pub fn fin(&self) -> Option<u64>
        ensures { result ≡ self.now.fin }
    {
        self.fin
    }

    /// The lowest kept position below `next`, or `next` where none is kept there.
    pub fn low(&self) -> u64
        ensures { ForReceiver self.now (λ r. result ≡ low_of r.cells self.now.rbuf) }
    {
        self.next.saturating_sub(u64::from(self.rbuf))
    }

    /// Places the bytes of a segment whose first one stands `d` above `next`, where the receive window has the `wide`
    /// positions from `next` on, and answers how they were judged: see [`wide`](crate::wide). A byte that was accepted
    /// before an offer left it outside the window is old. Where memory is refused, the stream is as before.
    #[inline(always)]
    pub fn place(
        &mut self,
        d: i64,
        bytes: &[u8],
        policy: Policy,
        wide: u32,
    ) -> Result<Placed, AllocError>
        requires from { neg_ℤ (pos (2 ^ 31)) ≤ℤ d }
        requires to { d <ℤ pos (2 ^ 31) }
        requires short { length bytes.now ≤ 65535 }
        requires next { self.old.next ≤ 2 ^ 62 }
        requires wide { wide ≤ self.old.rbuf }
        ensures err { OnErr result (self.new ≡ self.old) }
        ensures rbuf { self.new.rbuf ≡ self.old.rbuf }
        ensures rise { OnOk result (self.new.next ≤ self.old.next + self.old.rbuf) }
        ensures stands { OnOk result (StandsAfterWide self.old wide self.new
            (accept_above d bytes.now policy self.old.rbuf)) }
        ensures counts { IfOk result (λ placed. ForWide self.old wide
            (λ r. placed ≡ counts_above d bytes.now self.old.rbuf r)) }
    {
        if bytes.is_empty() {
            return Ok(Placed {
                new: 0,
                old: 0,
                differ: 0,
                over: 0,
            });
        }
        let next = self.next;
        let limit = limit(next, self.fin, wide);
        let start = start_of(next, d);
        let below = start.below.min(bytes.len() as u64) as usize;
        let placed = self
            .buffer
            .place(start.position, &bytes[below..], policy, limit, self.rbuf)?;
        self.next = self.buffer.next();
        Ok(placed.behind_old(below as u32))
    }

    /// Notes a FIN at `position`, the end of its segment, where `edge` is the greatest position that is allowed.
    pub fn note_fin(&mut self, position: i64, edge: u64) -> FinNote
        ensures answer { ForReceiver self.old (λ r. result ≡ note_of r position edge) }
        ensures stands { StandsAfter self.old self.new (λ r. noted r position edge) }
        ensures same { (self.new.next ≡ self.old.next) × (self.new.kept ≡ self.old.kept)
            × (self.new.rbuf ≡ self.old.rbuf) }
    {
        let Some(position) = natural(position) else {
            return FinNote::Refused;
        };
        let free = self.buffer.is_free_from(position);
        let note = judge(self.fin, position, edge, free);
        let fin = noted_after(self.fin, position, note);
        self.fin = fin;
        note
    }

    /// Copies the run of kept bytes from `position` on, as far as `buf` reaches, and answers how many these are:
    /// 0 exactly where `buf` is empty or `position` isn't kept. The rest of `buf` stays.
    pub fn read_at(&self, position: u64, buf: &mut [u8]) -> usize
        ensures bound { result ≤ length buf.old }
        ensures len { ForKept self.now (λ at. result ≡ length (bytes_from at position (length buf.old))) }
        ensures bytes { ForKept self.now
            (λ at. buf.new ≡ bytes_from at position (length buf.old) ++ drop result buf.old) }
    {
        let end = self.buffer.run_end(position, self.rbuf);
        let len = (end - position).min(buf.len() as u64) as usize;
        if len == 0 {
            return 0;
        }
        self.buffer.copy(position, &mut buf[..len]);
        len
    }

    /// The longest runs of kept positions among the `len` from `position` on, in order, also above `next`.
    /// Each is kept whole: `read_at` from its place on fills a buffer of its length.
    pub fn pieces(&self, position: u64, len: u32) -> Pieces<'_>
        ensures runs { ForKept self.now (λ at. result ≡ runs_from at position len) }
        ensures few { positions_in result ≤ len }
        ensures whole { ForKept self.now (λ at. AreWhole at result) }
    {
        Pieces::new(&self.buffer, self.rbuf, position, len)
    }
}
