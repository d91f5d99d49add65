//! The six native filters, asked by their number.

ghost use Rattle.std.specs.Prelude.{◌≡◌, ◌≤◌};
ghost use Rattle.native_filters.specs.Native.{native};

use crate::facts::Facts;
use crate::stored::Native;

/// The functions of the six native filters, in the order of their numbers. Threads may share it.
#[derive(Clone, Copy)]
pub struct NativeBook {
    n0: Native,
    n1: Native,
    n2: Native,
    n3: Native,
    n4: Native,
    n5: Native,
    ghost numbered0: { n0.which ≡ 0 },
    ghost numbered1: { n1.which ≡ 1 },
    ghost numbered2: { n2.which ≡ 2 },
    ghost numbered3: { n3.which ≡ 3 },
    ghost numbered4: { n4.which ≡ 4 },
    ghost numbered5: { n5.which ≡ 5 },
}

impl NativeBook {
    /// A book of six functions, each kept under its own number.
    pub fn new(n0: Native, n1: Native, n2: Native, n3: Native, n4: Native, n5: Native) -> NativeBook
        requires n0 { n0.which ≡ 0 }
        requires n1 { n1.which ≡ 1 }
        requires n2 { n2.which ≡ 2 }
        requires n3 { n3.which ≡ 3 }
        requires n4 { n4.which ≡ 4 }
        requires n5 { n5.which ≡ 5 }
    {
        NativeBook {
            n0,
            n1,
            n2,
            n3,
            n4,
            n5,
        }
    }

    /// Whether the native filter of a number is true of the facts.
    pub fn call(&self, which: u8, facts: &Facts) -> bool
        requires { which ≤ 5 }
        ensures { result ≡ native which facts.now }
    {
        match which {
            0 => self.n0.ask(facts),
            1 => self.n1.ask(facts),
            2 => self.n2.ask(facts),
            3 => self.n3.ask(facts),
            4 => self.n4.ask(facts),
            _ => self.n5.ask(facts),
        }
    }
}
