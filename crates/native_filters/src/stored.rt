//! A native filter that the caller hands in, kept with what is known of it.

ghost use Rattle.std.specs.Prelude.{◌≡◌, ◌≤◌, Bool};
ghost use Rattle.std.specs.Borrow.{Bor};
ghost use Rattle.native_filters.specs.declared.facts.Facts.{Facts as FactsOf};
ghost use Rattle.native_filters.specs.Native.{native};

use crate::facts::Facts;

/// A function of facts that computes the native filter of a number.
///
/// It keeps that the function may be called on every `Facts`, and that it answers what the native filter
/// of its number is there.
#[derive(Clone, Copy)]
pub struct Native {
    /// The number of the native filter, from 0 to 5.
    pub which: u8,
    function: fn(&Facts) -> bool,
    ghost numbered: { which ≤ 5 },
    ghost callable: { IsAlwaysCallable function },
    ghost answers: { (facts : Bor FactsOf) (answer : Bool) → post function facts answer → answer ≡ native which facts.now },
}

impl Native {
    /// Keeps a function under the number of the native filter that it computes.
    pub fn new(which: u8, f: fn(&Facts) -> bool) -> Native
        requires number { which ≤ 5 }
        requires callable { IsAlwaysCallable f }
        requires answers { (facts : Bor FactsOf) (answer : Bool) → post f facts answer
            → answer ≡ native which facts.now }
        ensures { result.which ≡ which }
    {
        Native { which, function: f }
    }

    /// Asks the function.
    pub fn ask(&self, facts: &Facts) -> bool
        ensures { result ≡ native self.now.which facts.now }
    {
        (self.function)(facts)
    }
}
