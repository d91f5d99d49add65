//! Who is asked the native filters.

ghost use Rattle.std.specs.Prelude.{◌≡◌, ◌≤◌};
ghost use Rattle.native_filters.specs.Native.{native};

use native_filters::{Facts, NativeBook};

/// Answers each native filter. Evaluation calls itself, and the prover states no such cycle over a type that
/// keeps functions. So it asks through this trait, and doesn't see where a book has its answers.
pub(crate) trait Natives {
    /// Whether the native filter of a number is true of the facts.
    fn ask(&self, which: u8, facts: &Facts) -> bool
        requires { which ≤ 5 }
        ensures { result ≡ native which facts.now };
}

impl Natives for NativeBook {
    fn ask(&self, which: u8, facts: &Facts) -> bool {
        self.call(which, facts)
    }
}
