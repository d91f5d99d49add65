//! Applications: what they answer at each callback.

ghost use Rattle.std.specs.Prelude.{◌≡◌, IsTrue, slice_get};
ghost use Rattle.app_api.specs.App.{Meaning, IsLawful, RestsAt, are_rules, field_shown};
ghost use Rattle.app_api.specs.Reg.{reg_of};

use crate::reaction::Reaction;
use crate::registration::Reg;
use crate::rule::Rule;
use native_filters::{Facts, Hook};

/// One callback, as its application sees it.
#[derive(Clone, Copy, Debug, PartialEq, Eq)]
pub struct Call {
    /// The registration's number.
    pub reg: u8,
    /// The side at which it is made.
    pub hook: Hook,
    /// The number of the registration's event.
    pub event: u16,
    /// The facts of the raise.
    pub facts: Facts,
    /// How many bytes were peeked.
    pub got: u32,
}

/// What an application keeps of one connection: eight numbers, which mean what the application's
/// fields say. Sums in them are modulo 2^64.
#[derive(Clone, Copy, Debug, PartialEq, Eq)]
pub struct Tally {
    pub t0: u64,
    pub t1: u64,
    pub t2: u64,
    pub t3: u64,
    pub t4: u64,
    pub t5: u64,
    pub t6: u64,
    pub t7: u64,
}

impl Tally {
    ghost use Rattle.app_api.specs.Tally.{zeros};

    /// Eight zeros.
    pub fn zeros() -> Tally
        ensures { result ≡ zeros }
    {
        Tally {
            t0: 0,
            t1: 0,
            t2: 0,
            t3: 0,
            t4: 0,
            t5: 0,
            t6: 0,
            t7: 0,
        }
    }
}

/// An application. No call takes memory. What one has to give is `meaning`, `lawful` and all calls but `rests_at`.
pub trait App {
    /// What it answers.
    ghost meaning: { Self → Meaning };

    /// The preset of a number, or `None` where it has none.
    fn preset(&self, number: u8) -> Option<Reg>
        ensures { result ≡ reg_of (meaning self.now).presets number };

    /// The tally that a connection starts with.
    fn fresh(&self) -> Tally
        ensures { result ≡ (meaning self.now).fresh };

    /// Runs a callback of one of its presets: it may change the tally, and asks for a drop or changes.
    /// The rules are those in force for the connection, by rising number from 1 on.
    fn react(&self, t: &mut Tally, call: &Call, rules: &[Rule]) -> Reaction
        requires { IsTrue (are_rules rules.now) }
        ensures tally { t.new ≡ ((meaning self.now).react t.old call.now rules.now).0 }
        ensures reaction { result ≡ ((meaning self.now).react t.old call.now rules.now).1 };

    /// Whether it rests at a side: there none of its callbacks changes the tally or asks anything. So such a callback has
    /// only to be counted, and noted where callbacks are kept. `false` is always an answer.
    fn rests_at(&self, hook: Hook) -> bool
        ensures rests { IsTrue result → RestsAt (meaning self.now) hook }
    {
        let _ = hook;
        false
    }

    /// The name and value of a field, by its place from 0, or `None` where there is none.
    fn field(&self, i: u8, t: &Tally) -> Option<(&str, u64)>
        ensures { field_shown result ≡ slice_get ((meaning self.now).fields t.now) i };

    /// Its presets may be presets, its fields' names are names, and at the receiver it asks no drop.
    ghost lawful: { (app : Self) → IsLawful (meaning app) };
}
