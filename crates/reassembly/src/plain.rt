//! The receiver of the definitions, in code: slow, and it forgets nothing.

ghost use Rattle.std.specs.Prelude.{◌≡◌, ℕ, ◌+◌, ◌<◌, ◌≤◌, ◌^◌, ℤ, pos, neg_ℤ, ◌≤ℤ◌, ◌<ℤ◌, max, length, drop, OnOk, OnErr, IfOk, Option, is_some, slice_index, slice_index_or, None};
ghost use Rattle.std.specs.List.{prefix_len};
ghost use Rattle.reassembly.specs.Receiver.{no_bytes, held, next_of, kept, wide_of, limit_of};
ghost use Rattle.reassembly.specs.Segment.{is_old, is_new, is_beyond, is_differing, cell_after, held_after, accept_above, counts_above};
ghost use Rattle.reassembly.specs.Fin.{is_free_from, note_of, noted};
ghost use Rattle.reassembly.specs.Offer.{offered};
ghost use Rattle.reassembly.specs.Plain.{judged_below, counted_more};

use crate::fin::{judge, natural, noted_after};
use crate::offer::{greatest_offer, wide};
use crate::start::{limit, start_of};
use crate::{FinNote, Placed, Policy};
use std::alloc::{AllocError, Global};
use std::marker::Model;

/// The model of a receiver as a plain list of optional bytes by position. It is what [`Stream`](crate::Stream) is
/// compared with in tests: each call takes time and memory by the length of the whole stream.
#[derive(Drop)]
pub struct PlainReceiver {
    cells: Vec<Option<u8>>,
    fin: Option<u64>,
    offer: Option<u64>,
}

impl Model for PlainReceiver {
    ghost use Rattle.reassembly.specs.Receiver.{Receiver};

    ghost Value = { Receiver };

    ghost view = { λ r. record { cells = r.cells.items; fin = r.fin; offer = r.offer } };
}

/// What all bytes of a segment are judged by: the receiver from before it.
#[derive(Clone, Copy)]
pub struct Before {
    pub next: u64,
    pub limit: u64,
    pub rbuf: u32,
}

// The place of the first empty cell.
fn first_empty(cells: &[Option<u8>]) -> usize
    ensures { result ≡ next_of cells.now }
{
    for (i, cell) in cells.iter().enumerate() {
        if cell.is_none() {
            return i;
        }
    }
    cells.len()
}

// Whether no cell at `position` or past it is filled.
fn is_free(cells: &[Option<u8>], position: u64) -> bool
    ensures { result ≡ is_free_from cells.now position }
{
    for (i, cell) in cells.iter().enumerate() {
        if position <= i as u64 && cell.is_some() {
            return false;
        }
    }
    true
}

// The cell at `position` after a byte of the segment.
fn written(before: Before, policy: Policy, position: u64, cell: Option<u8>, byte: u8) -> Option<u8>
    ensures { result ≡ cell_after before.next before.limit policy position cell byte }
{
    let old = position < before.next || cell.is_some();
    let new = !old && position < before.limit;
    if new || (policy == Policy::Last && old && before.next <= position) {
        Some(byte)
    } else {
        cell
    }
}

// The counts with one byte more.
fn counted(placed: Placed, before: Before, position: u64, cell: Option<u8>, byte: u8) -> Placed
    requires few { (placed.new < 65535) × (placed.old < 65535) × (placed.differ < 65535) × (placed.over < 65535) }
    ensures { result ≡ counted_more placed before position cell byte }
{
    let old = position < before.next || cell.is_some();
    let low = before.next.saturating_sub(u64::from(before.rbuf));
    let differs = match cell {
        Some(kept) => low <= position && kept != byte,
        None => false,
    };
    Placed {
        new: placed.new + u32::from(!old && position < before.limit),
        old: placed.old + u32::from(old),
        differ: placed.differ + u32::from(differs),
        over: placed.over + u32::from(!old && before.limit <= position),
    }
}

// Writes a segment's bytes from `start` on, one after another, and counts how they are judged.
fn write_all(
    cells: &mut [Option<u8>],
    start: usize,
    bytes: &[u8],
    before: Before,
    policy: Policy,
) -> Placed
    requires within { start + length bytes.now ≤ length cells.old }
    requires short { length bytes.now ≤ 65535 }
    ensures cells { (p : ℕ) → held cells.new p
        ≡ held_after before.next before.limit policy start bytes.now p (held cells.old p) }
    ensures placed { result ≡ judged_below before start bytes.now cells.old (length bytes.now) }
{
    let mut placed = Placed {
        new: 0,
        old: 0,
        differ: 0,
        over: 0,
    };
    for i in 0..bytes.len() {
        let cell = cells[start + i];
        let position = (start + i) as u64;
        placed = counted(placed, before, position, cell, bytes[i]);
        cells[start + i] = written(before, policy, position, cell, bytes[i]);
    }
    placed
}

impl PlainReceiver {
    /// A receiver that has accepted nothing.
    pub fn new(alloc: Global) -> Self
        ensures { result ≡ no_bytes }
    {
        PlainReceiver {
            cells: Vec::new(alloc),
            fin: None,
            offer: None,
        }
    }

    /// The least position that wasn't accepted.
    pub fn next(&self) -> u64
        ensures { result ≡ next_of self.now.cells }
    {
        first_empty(&self.cells) as u64
    }

    /// The kept byte at a position, for a receive buffer of `rbuf` bytes.
    pub fn kept(&self, position: u64, rbuf: u32) -> Option<u8>
        ensures { result ≡ kept self.now.cells rbuf position }
    {
        let low = self.next().saturating_sub(u64::from(rbuf));
        if low <= position {
            self.cells.get(position as usize).copied().flatten()
        } else {
            None
        }
    }

    /// How many positions from `next` on lie in its receive window, for a receive buffer of `rbuf` bytes.
    pub fn wide(&self, rbuf: u32) -> u32
        ensures value { result ≡ wide_of self.now rbuf }
        ensures bound { result ≤ rbuf }
    {
        wide(self.next(), self.offer, rbuf)
    }

    /// Makes an offer of `size` positions from `position` on.
    pub fn offer(&mut self, position: i64, size: u32)
        ensures { self.new ≡ offered self.old position size }
    {
        self.offer = Some(greatest_offer(self.offer, position, size));
    }

    /// Accepts the bytes of a segment whose first one stands `d` above `next`, and answers how they were judged.
    /// Where memory is refused, the receiver is as before.
    pub fn accept(
        &mut self,
        d: i64,
        bytes: &[u8],
        policy: Policy,
        rbuf: u32,
    ) -> Result<Placed, AllocError>
        requires from { neg_ℤ (pos (2 ^ 31)) ≤ℤ d }
        requires to { d <ℤ pos (2 ^ 31) }
        requires short { length bytes.now ≤ 65535 }
        requires next { next_of self.old.cells ≤ 2 ^ 62 }
        ensures err { OnErr result (self.new ≡ self.old) }
        ensures ok { OnOk result (self.new ≡ accept_above d bytes.now policy rbuf self.old) }
        ensures counts { IfOk result (λ placed. placed ≡ counts_above d bytes.now rbuf self.old) }
    {
        let next = self.next();
        let before = Before {
            next,
            limit: limit(next, self.fin, wide(next, self.offer, rbuf)),
            rbuf,
        };
        let start = start_of(next, d);
        let below = start.below.min(bytes.len() as u64) as usize;
        let bytes = &bytes[below..];
        let first = start.position as usize;
        let end = self.cells.len().max(first + bytes.len());
        self.cells.resize(end, None)?;
        let placed = write_all(&mut self.cells, first, bytes, before, policy);
        Ok(placed.behind_old(below as u32))
    }

    /// Notes a FIN at `position`, where `edge` is the greatest position that is allowed.
    pub fn note_fin(&mut self, position: i64, edge: u64) -> FinNote
        ensures answer { result ≡ note_of self.old position edge }
        ensures after { self.new ≡ noted self.old position edge }
    {
        let Some(position) = natural(position) else {
            return FinNote::Refused;
        };
        let free = is_free(&self.cells, position);
        let note = judge(self.fin, position, edge, free);
        let fin = noted_after(self.fin, position, note);
        self.fin = fin;
        note
    }
}
