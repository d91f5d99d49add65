//! The runs above `next`, which wait for the bytes before them, in an ordered map.

ghost use Rattle.std.specs.Prelude.{◌≡◌, ℕ, ◌-◌, ◌<◌, ◌≤◌, [], ◌∷◌, false, length, IfSome, IfNone, IfOk, OnOk, OnErr, IsTrue};
ghost use Rattle.std.specs.Ordering.{nat_cmp};
ghost use Rattle.std.specs.BTreeMap.{IsOrdered};
ghost use Rattle.reassembly.specs.Runs.{AreOrdered, AreAbove, AreWithin, Gains, KeepsBounds, run_at, is_covered, is_accepted};
ghost use Rattle.reassembly.specs.Waiting.{runs_of, begun_between, HasRun, EachRun, IsMet, IsJoined, IsThinned};

use crate::runs::Run;
use std::alloc::{AllocError, Global};
use std::collections::BTreeMap;
use std::ops::Bound;

/// The accepted runs, each under the position where it begins.
#[derive(Drop)]
pub struct Runs {
    pub map: BTreeMap<u64, u64>,
    pub alloc: Global,
}

// The run from `low` to `high`, joined with the runs that touch it.
fn joined(met: &[Run], low: u64, high: u64) -> Run
    requires { AreOrdered met.now }
    ensures { IsJoined met.now low high result }
{
    if met.is_empty() {
        return Run {
            start: low,
            end: high,
        };
    }
    Run {
        start: low.min(met[0].start),
        end: high.max(met[met.len() - 1].end),
    }
}

impl Runs {
    /// No runs. It takes no memory.
    pub fn new(alloc: Global) -> Self
        ensures { runs_of result ≡ [] }
    {
        Runs {
            map: BTreeMap::new(alloc),
            alloc,
        }
    }

    /// Makes the positions from `low` to below `high` the first run.
    pub fn begin(&mut self, low: u64, high: u64) -> Result<(), AllocError>
        requires { runs_of self.old ≡ [] }
        ensures err { OnErr result (runs_of self.new ≡ []) }
        ensures ok { OnOk result (runs_of self.new ≡ record { start = low; end = high } ∷ []) }
    {
        self.map.insert(low, high)?;
        Ok(())
    }

    /// Whether no run waits.
    pub fn is_empty(&self) -> bool
        ensures { IsTrue result → runs_of self.now ≡ [] }
    {
        self.map.is_empty()
    }

    // The last run that begins at `position` or below it.
    fn begun_by(&self, position: u64) -> Option<Run>
        ensures some { IfSome result (λ run. HasRun self.now run × (run.start ≤ position)
            × EachRun self.now (λ other. other.start ≤ position → other.start ≤ run.start)) }
        ensures none { IfNone result (EachRun self.now (λ other. position < other.start)) }
    {
        let Some((start, end)) = self.map.range(..=position).next_back() else {
            return None;
        };
        Some(Run {
            start: *start,
            end: *end,
        })
    }

    /// The first run that begins above `position`.
    pub fn above(&self, position: u64) -> Option<Run>
        ensures some { IfSome result (λ run. HasRun self.now run × (position < run.start)
            × EachRun self.now (λ other. position < other.start → run.start ≤ other.start)) }
        ensures none { IfNone result (EachRun self.now (λ other. other.start ≤ position)) }
    {
        let from = (Bound::Excluded(position), Bound::Unbounded);
        let Some((start, end)) = self.map.range(from).next() else {
            return None;
        };
        Some(Run {
            start: *start,
            end: *end,
        })
    }

    /// The run that has `position`.
    pub fn covering(&self, position: u64) -> Option<Run>
        requires { AreOrdered (runs_of self.now) }
        ensures some { IfSome result (λ run. HasRun self.now run × (run.start ≤ position) × (position < run.end)) }
        ensures none { IfNone result (is_covered (runs_of self.now) position ≡ false) }
    {
        match self.begun_by(position) {
            Some(run) if position < run.end => Some(run),
            _ => None,
        }
    }

    /// Where the last run ends.
    pub fn end(&self) -> Option<u64>
        ensures some { IfSome result (λ end. (0 < length (runs_of self.now))
            × (end ≡ (run_at (runs_of self.now) (length (runs_of self.now) - 1)).end)) }
        ensures none { IfNone result (runs_of self.now ≡ []) }
    {
        match self.map.last_key_value() {
            Some((_, end)) => Some(*end),
            None => None,
        }
    }

    // Takes the first run away if it begins at `high` or below it, and answers where it ends.
    fn pop_touching(&mut self, high: u64) -> Option<u64>
        ensures some { IfSome result (λ end. (run : _) × (runs_of self.old ≡ run ∷ runs_of self.new)
            × (run.start ≤ high) × (end ≡ run.end)) }
        ensures none { IfNone result ((runs_of self.new ≡ runs_of self.old)
            × (0 < length (runs_of self.old) → high < (run_at (runs_of self.old) 0).start)) }
    {
        match self.map.first_key_value() {
            Some((start, _)) if *start <= high => {}
            _ => return None,
        }
        match self.map.pop_first() {
            Some((_, end)) => Some(end),
            None => None,
        }
    }

    /// Takes the runs away that touch the positions below `high`, and answers where the last of them ends, or `high`.
    pub fn absorb(&mut self, high: u64) -> u64
        requires { AreOrdered (runs_of self.old) }
        ensures rises { high ≤ result }
        ensures ordered { AreOrdered (runs_of self.new) }
        ensures above { AreAbove (runs_of self.new) result }
        ensures accepted { (p : ℕ) → is_accepted result (runs_of self.new) p
            ≡ is_accepted high (runs_of self.old) p }
        ensures within { (m : ℕ) → high ≤ m → AreWithin (runs_of self.old) m
            → (result ≤ m) × AreWithin (runs_of self.new) m }
    {
        let mut end = high;
        while let Some(run_end) = self.pop_touching(end) {
            end = end.max(run_end);
        }
        end
    }

    // Where the run begins that begins at `low` or below it and reaches up to it: `low`, where there is none.
    fn first_touching(&self, low: u64) -> u64
        requires { AreOrdered (runs_of self.now) }
        ensures from { result ≤ low }
        ensures before { EachRun self.now (λ run. run.start < result → run.end < low) }
        ensures after { EachRun self.now (λ run. result ≤ run.start → run.start ≤ low → low ≤ run.end) }
    {
        match self.begun_by(low) {
            Some(run) if low <= run.end => run.start,
            _ => low,
        }
    }

    // The runs that begin at `from` or above it, and at `high` or below it.
    fn copied(&self, from: u64, high: u64) -> Result<Vec<Run>, AllocError>
        requires ordered { AreOrdered (runs_of self.now) }
        requires forward { from ≤ high }
        ensures { IfOk result (λ met. (met.items ≡ begun_between self.now from high) × AreOrdered met.items) }
    {
        let mut met = Vec::new(self.alloc);
        for (start, end) in self
            .map
            .range((Bound::Included(from), Bound::Included(high)))
        {
            met.push(Run {
                start: *start,
                end: *end,
            })?;
        }
        Ok(met)
    }

    /// The runs that touch the positions from `low` to below `high`. Where there are none, it takes no memory.
    pub fn touching(&self, low: u64, high: u64) -> Result<Vec<Run>, AllocError>
        requires ordered { AreOrdered (runs_of self.now) }
        requires order { low ≤ high }
        ensures { IfOk result (λ met. IsMet (runs_of self.now) low high met.items) }
    {
        if self.map.is_empty() {
            return Ok(Vec::new(self.alloc));
        }
        self.copied(self.first_touching(low), high)
    }

    // Takes those of the runs away that begin above `start`.
    fn remove_above(&mut self, start: u64, met: &[Run])
        requires { IsOrdered nat_cmp self.old.map }
        ensures { IsThinned self.old.map self.new.map start met.now (length met.now) }
    {
        for run in met {
            if start < run.start {
                self.map.remove(&run.start);
            }
        }
    }

    /// Adds the positions from `low` to below `high`: the runs that they meet become one with them. Inserting that one
    /// comes first, since it alone may want memory.
    pub fn add(&mut self, low: u64, high: u64, met: &[Run]) -> Result<(), AllocError>
        requires ordered { AreOrdered (runs_of self.old) }
        requires some { low < high }
        requires met { IsMet (runs_of self.old) low high met.now }
        ensures err { OnErr result (runs_of self.new ≡ runs_of self.old) }
        ensures ordered { OnOk result (AreOrdered (runs_of self.new)) }
        ensures covered { OnOk result (Gains (is_covered (runs_of self.old)) (is_covered (runs_of self.new)) low high) }
        ensures above { OnOk result (KeepsBounds (λ m. m < low) AreAbove (runs_of self.old) (runs_of self.new)) }
        ensures within { OnOk result (KeepsBounds (λ m. high ≤ m) AreWithin (runs_of self.old) (runs_of self.new)) }
    {
        let run = joined(met, low, high);
        self.map.insert(run.start, run.end)?;
        self.remove_above(run.start, met);
        Ok(())
    }
}
