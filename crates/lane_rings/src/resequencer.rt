//! Puts answers back into the order of the capture.

ghost use Rattle.std.specs.Prelude.{◌≡◌, ◌≤◌, ◌^◌, replicate, None, is_err, IfOk, OnOk, IfErr, OnErr, IfSome};
ghost use Rattle.lane_rings.specs.Waiting.{AreNumbered, first_of, is_refused, holding, moved_on};

use crate::items::Answer;
use std::alloc::{AllocError, Global};
use std::collections::VecDeque;
use std::marker::Model;

/// Holds answers that come before their turn, and gives each index out once, in order from 0. It holds at most as many
/// as its limit: a place for each index from the next one on.
#[derive(Drop)]
pub struct Resequencer {
    // One above the greatest index that was given out; that may lie above 2^64 - 1.
    next: u128,
    window: VecDeque<Option<Answer>>,
    ghost numbered: { AreNumbered next window.items },
    ghost within: { next ≤ 2 ^ 64 },
}

impl Model for Resequencer {
    ghost use Rattle.lane_rings.specs.Waiting.{Waiting};

    ghost Value = { Waiting };

    ghost view = { λ r. record { next = r.next; window = r.window.items } };
}

// A window of free places.
fn free_window(alloc: Global, limit: usize) -> Result<VecDeque<Option<Answer>>, AllocError>
    ensures { IfOk result (λ window. window.items ≡ replicate limit None) }
{
    let mut window = VecDeque::with_capacity(alloc, limit)?;
    for _ in 0..limit {
        window.push_back_reserved(None);
    }
    Ok(window)
}

impl Resequencer {
    ghost use Rattle.std.specs.Prelude.{ℕ, ◌≤◌, ◌+◌, ◌-◌, ◌<◌, length, Some, nat_lt, nat_le, ◌||◌, true};

    /// A resequencer that holds at most `limit` answers; it takes its memory at once. With a limit of 0 it takes none up.
    pub fn new(alloc: Global, limit: usize) -> Result<Resequencer, AllocError>
        ensures next { IfOk result (λ r. r.next ≡ 0) }
        ensures window { IfOk result (λ r. r.window ≡ replicate limit None) }
    {
        Ok(Resequencer {
            next: 0,
            window: free_window(alloc, limit)?,
        })
    }

    /// Whether an index lies below the first one that is too far above the next to be taken up. It takes no memory.
    pub fn reaches(&self, index: u64) -> bool
        ensures { result ≡ nat_lt index (self.now.next + length self.now.window) }
    {
        u128::from(index) < self.next + self.window.len() as u128
    }

    // The place of an index; none where it was given out or lies too far above the next one.
    fn place_of(&self, index: u64) -> Option<usize>
        ensures some { IfSome result (λ place. (place ≡ index - self.now.next) × (self.now.next ≤ index)
            × (place < length self.now.window)) }
        ensures none { result ≡ None
            → (nat_lt index self.now.next || nat_le (self.now.next + length self.now.window) index) ≡ true }
    {
        let index = u128::from(index);
        if index < self.next {
            return None;
        }
        let place = index - self.next;
        if place < self.window.len() as u128 {
            Some(place as usize)
        } else {
            None
        }
    }

    /// Takes up an answer. It is handed back exactly where its index was given out already, is held, or lies `limit` or
    /// more above the next one; then nothing changes. It takes no memory.
    pub fn offer(&mut self, a: Answer) -> Result<(), Answer>
        ensures refused { is_err result ≡ is_refused self.old a.index }
        ensures ok { OnOk result (self.new ≡ holding self.old a) }
        ensures back { IfErr result (λ back. back ≡ a) }
        ensures unchanged { OnErr result (self.new ≡ self.old) }
    {
        let Some(place) = self.place_of(a.index) else {
            return Err(a);
        };
        if self.window[place].is_some() {
            return Err(a);
        }
        self.window[place] = Some(a);
        Ok(())
    }

    #[tactic(auto, using(crate::proofs::Windows::moved_numbered))]
    /// Gives out the answer whose turn it is; none where it isn't held. It takes no memory.
    pub fn next(&mut self) -> Option<Answer>
        ensures first { result ≡ first_of self.old }
        ensures moved { self.new ≡ moved_on self.old }
        ensures index { IfSome result (λ a. a.index ≡ self.old.next) }
    {
        let answer = self.window.front_mut()?.take()?;
        self.window.rotate_left(1);
        self.next += 1;
        Some(answer)
    }
}
