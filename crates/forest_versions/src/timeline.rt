//! A value that changes with the versions, and is known at each of them.

ghost use Rattle.std.specs.Prelude.{◌≡◌};
ghost use Rattle.forest_versions.specs.Changes.{ChangesTo};
ghost use Rattle.forest_versions.specs.Timeline.{as_of, unchanged, stepped, TakesBack, IsBefore};

use std::alloc::{AllocError, Global};
use std::marker::Model;

/// A value and its changes, each with the version from which on it holds. It takes memory by the number of changes,
/// and is asked in logarithmic time.
#[derive(Drop)]
pub(crate) struct Timeline<T> {
    first: T,
    steps: Vec<(u32, T)>,
}

impl<T> Model for Timeline<T> {
    ghost use Rattle.forest_versions.specs.Timeline.{Line, Rises};

    ghost Value = { Line T };

    ghost view = { λ t. record { first = t.first; steps = t.steps.items } };

    ghost invariant = { λ t. Rises t.steps.items };
}

impl<T: Drop> Timeline<T> {
    /// A value that hasn't changed yet.
    pub(crate) fn new(alloc: Global, first: T) -> Timeline<T>
        ensures { result ≡ unchanged first }
    {
        Timeline {
            first,
            steps: Vec::new(alloc),
        }
    }

    /// The value at a version. Nearly always it is the last one that is asked, so the last change is looked at first.
    #[inline(always)]
    pub(crate) fn at(&self, version: u32) -> &T
        ensures { result.now ≡ as_of self.now version }
    {
        let count = self.steps.len();
        if count == 0 {
            return &self.first;
        }
        let last = &self.steps[count - 1];
        if last.0 <= version {
            &last.1
        } else {
            self.searched(version)
        }
    }

    /// The value at a version, as `at` has it, by a search of the changes.
    #[inline(never)]
    fn searched(&self, version: u32) -> &T
        ensures { result.now ≡ as_of self.now version }
    {
        let later = self.steps.partition_point(|step| step.0 <= version);
        if later == 0 {
            &self.first
        } else {
            &self.steps[later - 1].1
        }
    }

    /// From a version on, which is later than all changes so far, it has another value. An error is want of memory,
    /// and changes nothing.
    pub(crate) fn step(&mut self, from: u32, value: T) -> Result<(), AllocError>
        requires { IsBefore self.old from }
        ensures { ChangesTo self.old self.new (stepped self.old from value) result }
    {
        self.steps.push((from, value))?;
        Ok(())
    }

    /// Takes the last change back.
    pub(crate) fn step_back(&mut self)
        ensures { TakesBack stepped self.old self.new }
    {
        let _ = self.steps.pop();
    }
}
