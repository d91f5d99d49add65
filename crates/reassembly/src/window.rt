//! A window: the bytes of a stream in pages, of which those below `next` and those in a run are accepted.

ghost use Rattle.std.specs.Prelude.{◌≡◌, ℕ, ◌+◌, ◌-◌, ◌<◌, ◌≤◌, ◌^◌, ◌⊎◌, [], length, min, true, OnOk, OnErr, IfOk, Option, IsTrue, IsFalse};
ghost use Rattle.reassembly.specs.Runs.{AreOrdered, AreAbove, Gains, KeepsBounds};
ghost use Rattle.reassembly.specs.Laying.{HasBytes};
ghost use Rattle.reassembly.specs.Pages.{HasNoPages, IsHeld, IsReady, IsGrown, tally_in};
ghost use Rattle.reassembly.specs.Waiting.{runs_of, IsMet};

use crate::laying::Judged;
use crate::pages::Pages;
use crate::runs::Run;
use crate::waiting::Runs;
use crate::{Placed, Policy};
use std::alloc::{AllocError, Global};

#[derive(Drop)]
pub struct Window {
    pub next: u64,
    pub bytes: Pages,
    pub runs: Runs,
}

// How many of `len` positions from `start` on lie below `position`.
pub fn count_under(position: u64, start: u64, len: usize) -> usize
    ensures { result ≡ min (position - start) len }
{
    position.saturating_sub(start).min(len as u64) as usize
}

impl Window {
    ghost use Rattle.reassembly.specs.Placing.{Places, Judges};
    ghost use Rattle.reassembly.specs.Kept.{IsRunEnd, IsFirstKept};
    ghost use Rattle.reassembly.specs.Window.{kept_at, byte_at, accepts, IsLaid, IsKept, CanCopy, HasRoomFor, IsReadyFor, IsBounded, IsSameWindow, taken_tally, AreTaken, AreAgain, HaveAccepted, differing_below};

    /// A window with nothing in it. It takes no memory.
    pub fn new(alloc: Global) -> Self
        ensures laid { IsLaid result }
        ensures empty { (result.bytes.base ≡ 0) × (result.next ≡ 0) × (runs_of result.runs ≡ []) }
        ensures pages { HasNoPages result.bytes }
    {
        Window {
            next: 0,
            bytes: Pages::new(alloc),
            runs: Runs::new(alloc),
        }
    }

    // Where the accepted positions end: none is accepted there or above.
    fn end(&self) -> u64
        requires { IsLaid self.now }
        ensures bounded { IsBounded self.now result }
        ensures last { 0 < result → accepts self.now (result - 1) ≡ true }
    {
        match self.runs.end() {
            Some(end) => end,
            None => self.next,
        }
    }

    // Takes the memory for the positions from `low` to below `high`, and answers the runs that touch them. Where there
    // is no such position, it takes none.
    fn meet(&mut self, low: u64, high: u64) -> Result<Vec<Run>, AllocError>
        requires laid { IsLaid self.old }
        requires base { (high ≤ low) ⊎ (self.old.bytes.base ≤ low) }
        ensures place { (self.new.next ≡ self.old.next) × (self.new.runs ≡ self.old.runs) }
        ensures grown { IsGrown self.old.bytes self.new.bytes }
        ensures ready { OnOk result (IsReady self.new.bytes low high) }
        ensures ordered { IfOk result (λ met. AreOrdered met.items) }
        ensures met { IfOk result (λ met. (high ≤ low) ⊎ IsMet (runs_of self.old.runs) low high met.items) }
    {
        if high <= low {
            return Ok(Vec::new(self.bytes.alloc));
        }
        self.bytes.reserve(low, high)?;
        self.runs.touching(low, high)
    }

    // Accepts the positions from `low` to below `high`, where `met` are the runs that touch them.
    fn accept(&mut self, low: u64, high: u64, met: &[Run]) -> Result<(), AllocError>
        requires ordered { AreOrdered (runs_of self.old.runs) }
        requires above { AreAbove (runs_of self.old.runs) self.old.next }
        requires from { self.old.next ≤ low }
        requires some { low < high }
        requires met { IsMet (runs_of self.old.runs) low high met.now }
        ensures bytes { self.new.bytes ≡ self.old.bytes }
        ensures err { OnErr result ((self.new.next ≡ self.old.next)
            × (runs_of self.new.runs ≡ runs_of self.old.runs)) }
        ensures ordered { OnOk result (AreOrdered (runs_of self.new.runs)) }
        ensures above { OnOk result (AreAbove (runs_of self.new.runs) self.new.next) }
        ensures rises { OnOk result (self.old.next ≤ self.new.next) }
        ensures accepted { OnOk result (Gains (accepts self.old) (accepts self.new) low high) }
        ensures bounded { OnOk result (KeepsBounds (λ m. high ≤ m) IsBounded self.old self.new) }
    {
        if low == self.next {
            self.rise(high);
            return Ok(());
        }
        self.runs.add(low, high, met)
    }

    // Accepts the positions from `next` to below `high`, and goes on over the runs that they reach.
    fn rise(&mut self, high: u64)
        requires ordered { AreOrdered (runs_of self.old.runs) }
        requires above { AreAbove (runs_of self.old.runs) self.old.next }
        requires some { self.old.next < high }
        ensures bytes { self.new.bytes ≡ self.old.bytes }
        ensures ordered { AreOrdered (runs_of self.new.runs) }
        ensures above { AreAbove (runs_of self.new.runs) self.new.next }
        ensures rises { self.old.next ≤ self.new.next }
        ensures accepted { Gains (accepts self.old) (accepts self.new) self.old.next high }
        ensures bounded { KeepsBounds (λ m. high ≤ m) IsBounded self.old self.new }
    {
        self.next = self.runs.absorb(high);
    }

    // How many bytes of a segment from `start` on, which lie below `next`, differ from the kept ones.
    fn compare(&self, start: u64, bytes: &[u8], rbuf: u32) -> u32
        requires ready { IsReadyFor self.now start bytes.now rbuf }
        requires below { (length bytes.now ≡ 0) ⊎ (start + length bytes.now ≤ self.now.next) }
        ensures value { result ≡ differing_below self.now rbuf start bytes.now }
        ensures bound { result ≤ length bytes.now }
    {
        let low = self.next.saturating_sub(u64::from(rbuf));
        let skip = count_under(low, start, bytes.len());
        if skip == bytes.len() {
            return 0;
        }
        self.bytes.differing(start + skip as u64, &bytes[skip..])
    }

    // Gives the pages back that lie below the kept positions.
    fn forget(&mut self, rbuf: u32)
        requires laid { IsLaid self.old }
        requires low { self.old.bytes.base ≤ self.old.next - rbuf }
        requires reach { self.old.next < 2 ^ 63 }
        ensures laid { IsLaid self.new }
        ensures place { (self.new.next ≡ self.old.next) × (self.new.runs ≡ self.old.runs) }
        ensures low { self.new.bytes.base ≤ self.new.next - rbuf }
        ensures stale { self.new.next - rbuf < self.new.bytes.base + 2048 }
        ensures bytes { (p : ℕ) → self.new.bytes.base ≤ p → byte_at self.new p ≡ byte_at self.old p }
    {
        let low = self.next.saturating_sub(u64::from(rbuf));
        self.bytes.forget(low);
    }

    // Takes bytes from `low` on, which lie at or above `next`. Memory comes first, and nothing fails after it.
    fn take(&mut self, low: u64, bytes: &[u8], policy: Policy) -> Result<Judged, AllocError>
        requires room { HasRoomFor self.old low bytes.now }
        requires base { self.old.bytes.base ≤ self.old.next }
        requires from { (length bytes.now ≡ 0) ⊎ (self.old.next ≤ low) }
        ensures err { OnErr result (IsSameWindow self.old self.new) }
        ensures base { self.new.bytes.base ≡ self.old.bytes.base }
        ensures held { (p : ℕ) → IsHeld self.old.bytes p → IsHeld self.new.bytes p }
        ensures laid { OnOk result (IsLaid self.new) }
        ensures rises { OnOk result (self.old.next ≤ self.new.next) }
        ensures bounded { OnOk result (KeepsBounds (λ m. (length bytes.now ≡ 0) ⊎ (low + length bytes.now ≤ m))
            IsBounded self.old self.new) }
        ensures cells { OnOk result (AreTaken policy low bytes.now self.old self.new) }
        ensures tally { IfOk result (λ tally. tally ≡ taken_tally self.old low bytes.now) }
        ensures few { IfOk result (λ tally. (tally.old ≤ length bytes.now) × (tally.differ ≤ length bytes.now)) }
    {
        if bytes.is_empty() {
            return Ok(Judged {
                new: 0,
                old: 0,
                differ: 0,
            });
        }
        let high = low + bytes.len() as u64;
        if low == self.next && self.runs.is_empty() {
            self.bytes.append(low, bytes)?;
            self.rise(high);
            return Ok(Judged {
                new: bytes.len() as u32,
                old: 0,
                differ: 0,
            });
        }
        let met = self.meet(low, high)?;
        self.accept(low, high, &met)?;
        Ok(self.bytes.lay(&met, low, bytes, policy))
    }

    // Lays bytes from `low` on, past the limit, whose memory is there. They come again where `met` has their positions,
    // which are accepted: these are compared, and replaced where the last byte stays. None of the others is accepted.
    fn repeat(&mut self, met: &[Run], low: u64, bytes: &[u8], policy: Policy) -> Judged
        requires room { HasRoomFor self.old low bytes.now }
        requires ordered { AreOrdered met.now }
        requires base { (length bytes.now ≡ 0) ⊎ (self.old.bytes.base ≤ low) }
        requires ready { IsReady self.old.bytes low (low + length bytes.now) }
        requires met { HaveAccepted self.old met.now low (low + length bytes.now) }
        ensures place { (self.new.next ≡ self.old.next) × (self.new.runs ≡ self.old.runs) }
        ensures base { self.new.bytes.base ≡ self.old.bytes.base }
        ensures laid { IsLaid self.new }
        ensures cells { AreAgain policy low bytes.now self.old self.new }
        ensures tally { result ≡ tally_in self.old.bytes met.now low bytes.now (length bytes.now) }
        ensures new { result.new ≤ length bytes.now }
        ensures few { (result.old ≤ length bytes.now) × (result.differ ≤ length bytes.now) }
    {
        if bytes.is_empty() {
            return Judged {
                new: 0,
                old: 0,
                differ: 0,
            };
        }
        self.bytes.lay(met, low, bytes, policy)
    }

    /// Places a segment that begins at `start`, where no position from `limit` on is accepted anew, and answers how its
    /// bytes were judged. A position past the limit that was accepted before an offer set it is old. Where memory is
    /// refused, nothing has changed.
    pub fn place(
        &mut self,
        start: u64,
        segment: &[u8],
        policy: Policy,
        limit: u64,
        rbuf: u32,
    ) -> Result<Placed, AllocError>
        requires ready { IsReadyFor self.old start segment.now rbuf }
        requires order { self.old.next ≤ limit }
        requires window { limit ≤ self.old.next + rbuf }
        ensures err { OnErr result (IsSameWindow self.old self.new) }
        ensures placed { OnOk result (Places limit rbuf start segment.now policy self.old self.new) }
        ensures judged { IfOk result (Judges limit rbuf start segment.now self.old) }
    {
        let below = count_under(self.next, start, segment.len());
        let within = count_under(limit, start, segment.len());
        let reach = within.max(count_under(self.end(), start, segment.len()));
        let rest = start + within as u64;
        let differ = self.compare(start, &segment[..below], rbuf);
        let met = self.meet(rest, start + reach as u64)?;
        let tally = self.take(start + below as u64, &segment[below..within], policy)?;
        let again = self.repeat(&met, rest, &segment[within..reach], policy);
        self.forget(rbuf);
        Ok(Placed {
            new: tally.new,
            old: below as u32 + tally.old + again.old,
            differ: differ + tally.differ + again.differ,
            over: (segment.len() - reach) as u32 + again.new,
        })
    }

    /// Whether no byte at `position` or past it is accepted.
    pub fn is_free_from(&self, position: u64) -> bool
        requires { IsLaid self.now }
        ensures free { IsTrue result → IsBounded self.now position }
        ensures taken { IsFalse result → (p : ℕ) × (position ≤ p) × (accepts self.now p ≡ true) }
    {
        self.end() <= position
    }

    /// Where the run of kept positions ends that has `position`: `position` itself, where it isn't kept.
    pub fn run_end(&self, position: u64, rbuf: u32) -> u64
        requires { IsLaid self.now }
        ensures { IsRunEnd (kept_at self.now rbuf) position result }
    {
        if position < self.next.saturating_sub(u64::from(rbuf)) {
            return position;
        }
        if position < self.next {
            return self.next;
        }
        match self.runs.covering(position) {
            Some(run) => run.end,
            None => position,
        }
    }

    /// The first kept position at or above `position`, if there is one.
    pub fn first_kept(&self, position: u64, rbuf: u32) -> Option<u64>
        requires { IsKept self.now rbuf }
        ensures { IsFirstKept (kept_at self.now rbuf) position result }
    {
        let low = self.next.saturating_sub(u64::from(rbuf));
        if position < self.next {
            return Some(position.max(low));
        }
        if self.runs.covering(position).is_some() {
            return Some(position);
        }
        match self.runs.above(position) {
            Some(run) => Some(run.start),
            None => None,
        }
    }

    /// Copies the bytes from `position` on, which are accepted and which the window still has, and fills `buf`.
    pub fn copy(&self, position: u64, buf: &mut [u8])
        requires { CanCopy self.now position (length buf.old) }
        ensures { HasBytes buf.new (length buf.old) (λ i. byte_at self.now (position + i)) }
    {
        self.bytes.copy(position, buf);
    }
}
