//! The bytes of a stream by position, in pages of 2,048 positions: those that lie below a place are given back one by one,
//! and the last of these becomes the next page.

ghost use Rattle.std.specs.Prelude.{◌≡◌, ℕ, ◌+◌, ◌-◌, ◌*◌, ◌/◌, ◌%◌, ◌<◌, ◌≤◌, ◌^◌, ◌⊎◌, ◌++◌, [], length, min, vec_len, OnOk, OnErr, IsTrue, is_ok, if◌then◌else◌};
ghost use Rattle.reassembly.specs.Laying.{HasBytes, HasSameBytes};

use crate::Policy;
use crate::laying::{Judged, added, differing, lay};
use crate::runs::Run;
use slab::Slab;
use std::alloc::{AllocError, Global};
use std::mem::{replace, swap};

/// How many positions a page has.
pub const PAGE: usize = 2048;

/// The pages from position `base` on. A page is as long as what was written into it, and what lies past its end is 0. The
/// page that was given back last is the spare one, which becomes the next.
#[derive(Drop)]
pub struct Pages {
    pub base: u64,
    pub keys: Vec<usize>,
    pub slab: Slab<Vec<u8>>,
    pub spare: Vec<u8>,
    pub alloc: Global,
}

// How many of the `left` positions from `offset` on lie in one page.
fn part_len(offset: u64, left: usize) -> usize
    ensures page { offset % 2048 + result ≤ 2048 }
    ensures left { result ≤ left }
    ensures some { 1 ≤ left → 1 ≤ result }
{
    (PAGE - offset as usize % PAGE).min(left)
}

// Makes a page at least `len` bytes long. The bytes that it had stay, and the others are 0. Room is asked for the whole
// page, or else twice what there was.
fn lengthen(page: &mut Vec<u8>, len: usize, is_whole: bool) -> Result<(), AllocError>
    requires { len ≤ 2048 }
    ensures bytes { HasSameBytes page.old.items page.new.items }
    ensures longer { length page.old.items ≤ length page.new.items }
    ensures len { OnOk result (len ≤ length page.new.items) }
{
    if page.len() >= len {
        return Ok(());
    }
    if page.capacity() < len {
        let room = if is_whole { PAGE } else { 2 * page.capacity() };
        page.reserve_exact(room.clamp(len, PAGE) - page.len())?;
    }
    page.resize(len, 0)
}

// Adds bytes behind those of a page. Room is asked for the whole page.
fn add_behind(page: &mut Vec<u8>, bytes: &[u8]) -> Result<(), AllocError>
    requires { length page.old.items + length bytes.now ≤ 2048 }
    ensures { page.new.items ≡ (if is_ok result then page.old.items ++ bytes.now else page.old.items) }
{
    if page.capacity() < page.len() + bytes.len() {
        page.reserve_exact(PAGE - page.len())?;
    }
    page.extend_from_slice(bytes)
}

impl Pages {
    ghost use Rattle.reassembly.specs.Pages.{page_at, byte_of, IsHeld, IsReady, IsKeyed, HasNoPages, HasPage, ReachTo, CanReach, HasPlaces, AreInPage, IsExtended, IsGrown, IsChangedAt, IsSamePlace, CanLay, IsLaidOver, AreAppended, differing_in};

    /// No pages. It takes no memory.
    pub fn new(alloc: Global) -> Self
        ensures base { result.base ≡ 0 }
        ensures none { HasNoPages result }
    {
        Pages {
            base: 0,
            keys: Vec::new(alloc),
            slab: Slab::new(alloc),
            spare: Vec::new(alloc),
            alloc,
        }
    }

    // Adds an empty page behind the others. The first one asks room for itself alone: most streams have no other.
    fn add(&mut self) -> Result<(), AllocError>
        requires { IsKeyed self.old }
        ensures extended { IsExtended self.old self.new }
        ensures rises { vec_len self.old.keys ≤ vec_len self.new.keys }
        ensures count { OnOk result (vec_len self.new.keys ≡ vec_len self.old.keys + 1) }
    {
        if self.keys.is_empty() {
            self.keys.reserve_exact(1)?;
            self.slab.reserve_exact(1)?;
        }
        self.keys.reserve(1)?;
        let mut page = replace(&mut self.spare, Vec::new(self.alloc));
        page.clear();
        let key = self.slab.insert(page)?;
        self.keys.push_reserved(key);
        Ok(())
    }

    /// Makes the bytes its first page, and leaves none. Where memory is refused, they stay.
    pub fn begin(&mut self, bytes: &mut Vec<u8>) -> Result<(), AllocError>
        requires { HasNoPages self.old }
        ensures err { OnErr result (bytes.new ≡ bytes.old) }
        ensures base { OnOk result (self.new.base ≡ self.old.base) }
        ensures keyed { OnOk result (IsKeyed self.new) }
        ensures first { OnOk result (page_at self.new 0 ≡ bytes.old.items) }
        ensures others { OnOk result ((k : ℕ) → page_at self.new (k + 1) ≡ []) }
    {
        self.add()?;
        let key = self.keys[0];
        swap(&mut self.slab[key], bytes);
        Ok(())
    }

    // Adds empty pages until there are `count`.
    fn extend(&mut self, count: usize) -> Result<(), AllocError>
        requires { IsKeyed self.old }
        ensures extended { IsExtended self.old self.new }
        ensures count { OnOk result (count ≤ vec_len self.new.keys) }
    {
        while self.keys.len() < count {
            self.add()?;
        }
        Ok(())
    }

    // Makes the page at a place at least `len` bytes long. The first page of a stream grows with what it carries, since
    // most streams have no other. The later ones are whole at once, so that none of their bytes is moved.
    fn stretch(&mut self, place: usize, len: usize) -> Result<(), AllocError>
        requires there { HasPage self.old place }
        requires page { len ≤ 2048 }
        ensures changed { IsChangedAt self.old self.new place }
        ensures bytes { HasSameBytes (page_at self.old place) (page_at self.new place) }
        ensures longer { length (page_at self.old place) ≤ length (page_at self.new place) }
        ensures len { OnOk result (len ≤ length (page_at self.new place)) }
    {
        let key = self.keys[place];
        let is_later = self.base > 0 || place > 0;
        lengthen(&mut self.slab[key], len, is_later)
    }

    /// Takes all the memory that the positions from `low` to below `high` need. No byte changes, whether it is refused or not.
    pub fn reserve(&mut self, low: u64, high: u64) -> Result<(), AllocError>
        requires { CanReach self.old low high }
        ensures grown { IsGrown self.old self.new }
        ensures ready { OnOk result (IsReady self.new low high) }
    {
        self.extend((high - 1 - self.base) as usize / PAGE + 1)?;
        let mut at = low;
        while at < high {
            let offset = at - self.base;
            let len = part_len(offset, (high - at) as usize);
            self.stretch(offset as usize / PAGE, offset as usize % PAGE + len)?;
            at += len as u64;
        }
        Ok(())
    }

    // The `len` bytes from `low` on, which lie in one page.
    fn part(&self, low: u64, len: usize) -> &[u8]
        requires places { HasPlaces self.now low len }
        requires page { AreInPage self.now low len }
        ensures len { length result.now ≡ len }
        ensures bytes { HasBytes result.now len (λ i. byte_of self.now (low + i)) }
    {
        let offset = (low - self.base) as usize;
        let from = offset % PAGE;
        let page = &self.slab[self.keys[offset / PAGE]];
        &page[from..from + len]
    }

    // Lays bytes from `low` on, which lie in one page.
    fn lay_part(&mut self, runs: &[Run], low: u64, bytes: &[u8], policy: Policy) -> Judged
        requires places { CanLay self.old runs.now low bytes.now }
        requires page { AreInPage self.old low (length bytes.now) }
        ensures { IsLaidOver self.old self.new runs.now low policy bytes.now result }
    {
        let offset = (low - self.base) as usize;
        let from = offset % PAGE;
        let key = self.keys[offset / PAGE];
        let page = &mut self.slab[key];
        lay(
            &mut page[from..from + bytes.len()],
            runs,
            low,
            bytes,
            policy,
        )
    }

    /// Lays bytes from `low` on, whose memory is there, page by page.
    pub fn lay(&mut self, runs: &[Run], low: u64, bytes: &[u8], policy: Policy) -> Judged
        requires { CanLay self.old runs.now low bytes.now }
        ensures { IsLaidOver self.old self.new runs.now low policy bytes.now result }
    {
        let mut tally = Judged {
            new: 0,
            old: 0,
            differ: 0,
        };
        let mut done = 0;
        while done < bytes.len() {
            let at = low + done as u64;
            let to = done + part_len(at - self.base, bytes.len() - done);
            let part = self.lay_part(runs, at, &bytes[done..to], policy);
            tally = added(tally, part);
            done = to;
        }
        tally
    }

    // Whether `len` bytes from `offset` on go on where their page ends, and fit into it.
    fn goes_on(&self, offset: usize, len: usize) -> bool
        requires keyed { IsKeyed self.now }
        requires short { len ≤ 65535 }
        ensures within { IsTrue result → offset / 2048 < vec_len self.now.keys }
        ensures fits { IsTrue result → offset % 2048 + len ≤ 2048 }
        ensures next { IsTrue result → length (page_at self.now (offset / 2048)) ≡ offset % 2048 }
    {
        let place = offset / PAGE;
        let from = offset % PAGE;
        if place >= self.keys.len() || from + len > PAGE {
            return false;
        }
        self.slab[self.keys[place]].len() == from
    }

    // Adds bytes behind those of a page, which is made whole where it lacks room.
    fn lengthen_by(&mut self, place: usize, bytes: &[u8]) -> Result<(), AllocError>
        requires there { HasPage self.old place }
        requires fits { length (page_at self.old place) + length bytes.now ≤ 2048 }
        ensures changed { IsChangedAt self.old self.new place }
        ensures page { page_at self.new place
            ≡ (if is_ok result then page_at self.old place ++ bytes.now else page_at self.old place) }
    {
        let key = self.keys[place];
        add_behind(&mut self.slab[key], bytes)
    }

    /// Takes the memory for bytes from `low` on, where none is accepted, and writes them. Where memory is refused, no byte
    /// has changed.
    pub fn append(&mut self, low: u64, bytes: &[u8]) -> Result<(), AllocError>
        requires room { CanReach self.old low (low + length bytes.now) }
        requires short { length bytes.now ≤ 65535 }
        requires reach { low + length bytes.now < 2 ^ 63 }
        ensures err { OnErr result (IsGrown self.old self.new) }
        ensures place { IsSamePlace self.old self.new }
        ensures ready { OnOk result (IsReady self.new low (low + length bytes.now)) }
        ensures bytes { OnOk result (AreAppended self.old self.new low bytes.now) }
    {
        let offset = (low - self.base) as usize;
        if self.goes_on(offset, bytes.len()) {
            return self.lengthen_by(offset / PAGE, bytes);
        }
        self.reserve(low, low + bytes.len() as u64)?;
        self.lay(&[], low, bytes, Policy::First);
        Ok(())
    }

    /// How many of the bytes from `low` on, whose positions are held, differ from those that are held.
    pub fn differing(&self, low: u64, bytes: &[u8]) -> u32
        requires places { HasPlaces self.now low (length bytes.now) }
        requires short { length bytes.now ≤ 65535 }
        ensures value { result ≡ differing_in self.now low bytes.now (length bytes.now) }
        ensures bound { result ≤ length bytes.now }
    {
        let mut count = 0;
        let mut done = 0;
        while done < bytes.len() {
            let at = low + done as u64;
            let to = done + part_len(at - self.base, bytes.len() - done);
            let part = &bytes[done..to];
            count += differing(self.part(at, part.len()), part);
            done = to;
        }
        count
    }

    /// Copies the bytes from `low` on, which are held, and fills `buf`.
    pub fn copy(&self, low: u64, buf: &mut [u8])
        requires { HasPlaces self.now low (length buf.old) }
        ensures { HasBytes buf.new (length buf.old) (λ i. byte_of self.now (low + i)) }
    {
        let mut done = 0;
        while done < buf.len() {
            let at = low + done as u64;
            let len = part_len(at - self.base, buf.len() - done);
            buf[done..done + len].copy_from_slice(self.part(at, len));
            done += len;
        }
    }

    // Gives the first page back.
    fn give_back(&mut self)
        requires there { HasPage self.old 0 }
        requires reach { self.old.base < 2 ^ 63 }
        ensures keyed { IsKeyed self.new }
        ensures base { self.new.base ≡ self.old.base + 2048 }
        ensures pages { (k : ℕ) → page_at self.new k ≡ page_at self.old (k + 1) }
        ensures count { vec_len self.new.keys + 1 ≡ vec_len self.old.keys }
    {
        let key = self.keys.remove(0);
        self.spare = self.slab.remove(key);
        self.base += PAGE as u64;
    }

    /// Gives each page back that lies below `low`.
    pub fn forget(&mut self, low: u64)
        requires reaches { ReachTo self.old low }
        requires reach { low < 2 ^ 63 }
        ensures keyed { IsKeyed self.new }
        ensures low { (self.old.base ≤ self.new.base) × (self.new.base ≤ low) × (low < self.new.base + 2048) }
        ensures bytes { (p : ℕ) → self.new.base ≤ p → byte_of self.new p ≡ byte_of self.old p }
        ensures held { (p : ℕ) → self.new.base ≤ p → IsHeld self.old p → IsHeld self.new p }
    {
        while low - self.base >= PAGE as u64 {
            self.give_back();
        }
    }
}
