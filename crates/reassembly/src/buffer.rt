//! The buffer of a stream, in the smallest one of three forms that is enough.

ghost use Rattle.std.specs.Prelude.{◌≡◌, ℕ, ◌+◌, ◌-◌, ◌<◌, ◌≤◌, ◌^◌, length, min, vec_capacity, true, Option, OnOk, OnErr, IfOk, IsTrue, IsFalse, ◌↔◌};
ghost use Rattle.reassembly.specs.Laying.{HasBytes};
ghost use Rattle.reassembly.specs.Placing.{Places, Judges};
ghost use Rattle.reassembly.specs.Window.{byte_at, accepts, IsLaid, IsKept, CanCopy, IsReadyFor, IsBounded, IsSameWindow};
ghost use Rattle.reassembly.specs.Buffer.{in_order, holed, differing_from, TakesAll};

use crate::holed::Holed;
use crate::laying::differing;
use crate::pages::PAGE;
use crate::window::{Window, count_under};
use crate::{Placed, Policy};
use std::alloc::{AllocError, Global};
use std::mem::replace;

/// What was accepted. Most streams end within their first page, and their segments come in order, or one comes early and
/// the next one fills the hole that it left.
#[derive(Drop)]
pub enum Buffer {
    /// All bytes from position 0 to below the next one, at most a page.
    InOrder(Vec<u8>),
    /// At most a page, with one hole. The segment that is missing puts the bytes in order again.
    Holed(Holed),
    /// Pages, and runs that wait behind the next position. It stays so.
    Spread(Box<Window>),
}

// The answer for `len` bytes of which the first `new` are new, and the others lie past the limit.
fn all_new(new: usize, len: usize) -> Placed
    requires order { new ≤ len }
    requires short { len ≤ 65535 }
    ensures { result ≡ record { new = new; old = 0; differ = 0; over = len - new } }
{
    Placed {
        new: new as u32,
        old: 0,
        differ: 0,
        over: (len - new) as u32,
    }
}

// Whether a segment leaves no hole behind the first `next` positions, and the first page has room for it.
fn can_append(next: usize, start: u64, len: usize, limit: u64) -> bool
    requires { start + len < 2 ^ 64 }
    ensures { IsTrue result ↔ (start ≤ next) × (start + min (limit - start) len ≤ 2048) }
{
    start <= next as u64 && start + count_under(limit, start, len) as u64 <= PAGE as u64
}

// Whether a segment leaves a hole behind the first `next` positions, and the first page has room for it.
fn can_wait(next: usize, start: u64, len: usize, limit: u64) -> bool
    requires { start + len < 2 ^ 64 }
    ensures { IsTrue result ↔ (next < start) × (start < limit) × (start + min (limit - start) len ≤ 2048) }
{
    let end = start + count_under(limit, start, len) as u64;
    (next as u64) < start && start < limit && end <= PAGE as u64
}

// How many bytes of a segment from `start` on differ from the kept ones, of those that have all the positions.
#[inline(always)]
fn compare(bytes: &[u8], start: u64, segment: &[u8], rbuf: u32) -> u32
    requires within { start + length segment.now ≤ length bytes.now }
    requires short { length segment.now ≤ 65535 }
    ensures value { result ≡ differing_from (length bytes.now - rbuf) bytes.now start segment.now }
    ensures bound { result ≤ length segment.now }
{
    if segment.is_empty() {
        return 0;
    }
    let low = (bytes.len() as u64).saturating_sub(u64::from(rbuf));
    let skip = count_under(low, start, segment.len());
    let from = start as usize;
    differing(&bytes[from + skip..from + segment.len()], &segment[skip..])
}

// Takes room for `len` bytes: four times what there was, where that is enough, and never more than a page.
fn make_room(bytes: &mut Vec<u8>, len: usize) -> Result<(), AllocError>
    requires { len ≤ 2048 }
    ensures same { bytes.new.items ≡ bytes.old.items }
    ensures room { OnOk result (len ≤ vec_capacity bytes.new) }
{
    if bytes.capacity() < len {
        let room = (4 * bytes.capacity()).clamp(len, PAGE);
        bytes.reserve_exact(room - bytes.len())?;
    }
    Ok(())
}

// Places a segment whose bytes go on where these end, and fit into a page.
#[inline(always)]
fn append(
    bytes: &mut Vec<u8>,
    start: u64,
    segment: &[u8],
    limit: u64,
    rbuf: u32,
) -> Result<Placed, AllocError>
    requires ready { IsReadyFor (in_order bytes.old) start segment.now rbuf }
    requires order { length bytes.old.items ≤ limit }
    requires window { limit ≤ length bytes.old.items + rbuf }
    requires from { start ≤ length bytes.old.items }
    requires page { start + min (limit - start) (length segment.now) ≤ 2048 }
    ensures err { OnErr result (IsSameWindow (in_order bytes.old) (in_order bytes.new)) }
    ensures placed { OnOk result ((policy : _)
        → Places limit rbuf start segment.now policy (in_order bytes.old) (in_order bytes.new)) }
    ensures judged { IfOk result (Judges limit rbuf start segment.now (in_order bytes.old)) }
{
    let below = count_under(bytes.len() as u64, start, segment.len());
    let within = count_under(limit, start, segment.len());
    let differ = compare(bytes, start, &segment[..below], rbuf);
    make_room(bytes, start as usize + within)?;
    bytes.extend_from_slice(&segment[below..within])?;
    Ok(Placed {
        new: (within - below) as u32,
        old: below as u32,
        differ,
        over: (segment.len() - within) as u32,
    })
}

// Places a segment that leaves a hole behind these bytes, and lies in their page. Where memory is refused, they stay.
#[inline(never)]
fn leave_hole(
    bytes: &mut Vec<u8>,
    start: u64,
    segment: &[u8],
    limit: u64,
) -> Result<Holed, AllocError>
    requires laid { IsLaid (in_order bytes.old) }
    requires some { 0 < length segment.now }
    requires short { length segment.now ≤ 65535 }
    requires hole { length bytes.old.items < start }
    requires within { start < limit }
    requires page { start + min (limit - start) (length segment.now) ≤ 2048 }
    ensures err { OnErr result (bytes.new.items ≡ bytes.old.items) }
    ensures ok { IfOk result (λ h. (rbuf : ℕ) → limit ≤ length bytes.old.items + rbuf
        → TakesAll limit rbuf start segment.now (in_order bytes.old) (holed h)) }
{
    let next = bytes.len();
    let within = count_under(limit, start, segment.len());
    make_room(bytes, start as usize + within)?;
    bytes.resize(start as usize, 0)?;
    bytes.extend_from_slice(&segment[..within])?;
    let alloc = *bytes.allocator();
    Ok(Holed {
        bytes: replace(bytes, Vec::new(alloc)),
        next: next as u16,
        start: start as u16,
    })
}

// The window that has these bytes as its first page. Where memory is refused, they stay.
#[inline(never)]
fn spread(bytes: &mut Vec<u8>) -> Result<Box<Window>, AllocError>
    requires { IsLaid (in_order bytes.old) }
    ensures err { OnErr result (bytes.new.items ≡ bytes.old.items) }
    ensures same { IfOk result (λ window. IsSameWindow (in_order bytes.old) window.value) }
{
    let alloc = *bytes.allocator();
    let mut window = Box::new(alloc, Window::new(alloc))?;
    window.next = bytes.len() as u64;
    window.bytes.begin(bytes)?;
    Ok(window)
}

impl Buffer {
    ghost use Rattle.std.specs.Prelude.{[]};
    ghost use Rattle.reassembly.specs.Buffer.{window_of};
    ghost use Rattle.reassembly.specs.Kept.{IsRunEnd, IsFirstKept};
    ghost use Rattle.reassembly.specs.Waiting.{runs_of};
    ghost use Rattle.reassembly.specs.Window.{kept_at};

    /// A buffer with nothing in it. It takes no memory.
    pub fn new(alloc: Global) -> Self
        ensures laid { IsLaid (window_of result) }
        ensures empty { ((window_of result).bytes.base ≡ 0) × ((window_of result).next ≡ 0) × (runs_of (window_of result).runs ≡ []) }
    {
        Buffer::InOrder(Vec::new(alloc))
    }

    /// The least position that wasn't accepted.
    pub fn next(&self) -> u64
        ensures { result ≡ (window_of self.now).next }
    {
        match self {
            Buffer::InOrder(bytes) => bytes.len() as u64,
            Buffer::Holed(holed) => u64::from(holed.next),
            Buffer::Spread(window) => window.next,
        }
    }

    /// Places a segment that begins at `start`, as [`Window::place`] does. The buffer is spread at the first one that the
    /// other two forms have no place for. Where memory is refused, the content is as before.
    pub fn place(
        &mut self,
        start: u64,
        segment: &[u8],
        policy: Policy,
        limit: u64,
        rbuf: u32,
    ) -> Result<Placed, AllocError>
        requires ready { IsReadyFor (window_of self.old) start segment.now rbuf }
        requires order { (window_of self.old).next ≤ limit }
        requires window { limit ≤ (window_of self.old).next + rbuf }
        ensures err { OnErr result (IsSameWindow (window_of self.old) (window_of self.new)) }
        ensures placed { OnOk result (Places limit rbuf start segment.now policy (window_of self.old) (window_of self.new)) }
        ensures judged { IfOk result (Judges limit rbuf start segment.now (window_of self.old)) }
    {
        let len = segment.len();
        if len == 0 {
            return Ok(all_new(0, 0));
        }
        match self {
            Buffer::InOrder(bytes) if can_append(bytes.len(), start, len, limit) => {
                append(bytes, start, segment, limit, rbuf)
            }
            Buffer::InOrder(bytes) if can_wait(bytes.len(), start, len, limit) => {
                *self = Buffer::Holed(leave_hole(bytes, start, segment, limit)?);
                Ok(all_new(count_under(limit, start, len), len))
            }
            Buffer::InOrder(bytes) => {
                let mut window = spread(bytes)?;
                let placed = window.place(start, segment, policy, limit, rbuf);
                *self = Buffer::Spread(window);
                placed
            }
            Buffer::Holed(holed) if holed.is_filled_by(start, len, limit) => {
                *self = Buffer::InOrder(holed.fill(segment));
                Ok(all_new(len, len))
            }
            Buffer::Holed(holed) => {
                let mut window = holed.spread()?;
                let placed = window.place(start, segment, policy, limit, rbuf);
                *self = Buffer::Spread(window);
                placed
            }
            Buffer::Spread(window) => window.place(start, segment, policy, limit, rbuf),
        }
    }

    /// Whether no byte at `position` or past it is accepted.
    pub fn is_free_from(&self, position: u64) -> bool
        requires { IsLaid (window_of self.now) }
        ensures free { IsTrue result → IsBounded (window_of self.now) position }
        ensures taken { IsFalse result → (p : ℕ) × (position ≤ p) × (accepts (window_of self.now) p ≡ true) }
    {
        match self {
            Buffer::InOrder(bytes) => bytes.len() as u64 <= position,
            Buffer::Holed(holed) => holed.is_free_from(position),
            Buffer::Spread(window) => window.is_free_from(position),
        }
    }

    /// Where the run of kept positions ends that has `position`: `position` itself, where it isn't kept.
    pub fn run_end(&self, position: u64, rbuf: u32) -> u64
        requires { IsLaid (window_of self.now) }
        ensures { IsRunEnd (kept_at (window_of self.now) rbuf) position result }
    {
        match self {
            Buffer::InOrder(bytes) => {
                let next = bytes.len() as u64;
                if position < next.saturating_sub(u64::from(rbuf)) {
                    return position;
                }
                position.max(next)
            }
            Buffer::Holed(holed) => holed.run_end(position, rbuf),
            Buffer::Spread(window) => window.run_end(position, rbuf),
        }
    }

    /// The first kept position at or above `position`, if there is one.
    pub fn first_kept(&self, position: u64, rbuf: u32) -> Option<u64>
        requires { IsKept (window_of self.now) rbuf }
        ensures { IsFirstKept (kept_at (window_of self.now) rbuf) position result }
    {
        match self {
            Buffer::InOrder(bytes) => {
                let next = bytes.len() as u64;
                if position >= next {
                    return None;
                }
                Some(position.max(next.saturating_sub(u64::from(rbuf))))
            }
            Buffer::Holed(holed) => holed.first_kept(position, rbuf),
            Buffer::Spread(window) => window.first_kept(position, rbuf),
        }
    }

    /// Copies the bytes from `position` on, which are accepted and which the buffer still has, and fills `buf`.
    pub fn copy(&self, position: u64, buf: &mut [u8])
        requires { CanCopy (window_of self.now) position (length buf.old) }
        ensures { HasBytes buf.new (length buf.old) (λ i. byte_at (window_of self.now) (position + i)) }
    {
        match self {
            Buffer::InOrder(bytes) => {
                let from = position as usize;
                buf.copy_from_slice(&bytes[from..from + buf.len()]);
            }
            Buffer::Holed(holed) => holed.copy(position, buf),
            Buffer::Spread(window) => window.copy(position, buf),
        }
    }
}
