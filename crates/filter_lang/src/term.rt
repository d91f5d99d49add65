//! The parts of a filter expression.

ghost use Rattle.std.specs.Prelude.{◌≡◌, ◌++◌, ◌∷◌, [], OnOk, OnErr, IfErr};

use std::alloc::{AllocFailed, Global};
use std::marker::Model;

/// How an atom is joined to what stands left of it in a sum.
#[derive(Clone, Copy, PartialEq, Eq, Debug)]
pub enum Join {
    /// `+`, modulo 2^64.
    Plus,
    /// `-`, modulo 2^64.
    Minus,
    /// `%`, the remainder; it is 0 where the divisor is 0.
    Rem,
}

/// A comparison of two sums.
#[derive(Clone, Copy, PartialEq, Eq, Debug)]
pub enum Op {
    /// `=`.
    Eq,
    /// `!=`.
    Ne,
    /// `<`.
    Lt,
    /// `<=`.
    Le,
    /// `>`.
    Gt,
    /// `>=`.
    Ge,
    /// `has`: each bit that is set in the right number is set in the left.
    Has,
}

/// A number that a filter names.
#[derive(Clone, Copy, PartialEq, Eq, Debug)]
pub enum Atom {
    /// The fact at this place of a packet's facts, from 0 to 19.
    Fact(u8),
    /// A number, or an IPv4 address as a number.
    Number(u64),
}

/// One more atom of a sum, with how it is joined on.
pub type Step = (Join, Atom);

/// The atoms of a sum after its first, from the left, each with how it is joined on.
#[derive(Drop)]
pub struct StepList {
    /// The items in order.
    pub items: Vec<Step>,
}

impl Model for StepList {
    ghost use Rattle.std.specs.Prelude.{List};
    ghost use Rattle.filter_lang.specs.declared.term.Atom.{Atom};
    ghost use Rattle.filter_lang.specs.declared.term.Join.{Join};

    ghost Value = { List (Join × Atom) };

    ghost view = { λ l. l.items.items };
}

impl StepList {
    /// The empty list.
    pub fn new(alloc: Global) -> StepList
        ensures { result ≡ [] }
    {
        StepList {
            items: Vec::new(alloc),
        }
    }

    /// The items in order.
    pub fn as_slice(&self) -> &[Step]
        ensures { result.now ≡ self.now }
    {
        self.items.as_slice()
    }

    /// Puts a step at the end. An error leaves the list as it was, and hands the step back.
    pub fn push(&mut self, step: Step) -> Result<(), AllocFailed<Step>>
        ensures ok { OnOk result (self.new ≡ self.old ++ step ∷ []) }
        ensures err { OnErr result (self.new ≡ self.old) }
        ensures back { IfErr result (λ refused. refused.value ≡ step) }
    {
        self.items.push(step)
    }
}

/// One side of a comparison: its atoms, joined from the left.
#[derive(Drop)]
pub struct Sum {
    /// The first atom.
    pub first: Atom,
    /// The other atoms, each with how it is joined on.
    pub rest: StepList,
}

/// A filter expression.
#[derive(Drop)]
#[cycle(term)]
pub enum Term {
    /// Always true.
    True,
    /// Never true.
    False,
    /// The native filter of this number, from 0 to 5.
    Native(u8),
    /// A comparison of two sums.
    Cmp(Sum, Op, Sum),
    /// True where the term in it is not.
    Not(Box<Term>),
    /// True where all of its members are, of which there are two or more.
    And(TermList),
    /// True where one or more of its members are, of which there are two or more.
    Or(TermList),
}

/// The members of a chain of `&&` or of `||`, from the left. A type that holds itself has no model, so
/// contracts name the field.
#[derive(Drop)]
#[cycle(term)]
pub struct TermList {
    /// The members in order.
    pub items: Vec<Term>,
}

impl TermList {
    /// The members, in their order.
    pub fn as_slice(&self) -> &[Term]
        ensures { result.now ≡ self.now.items.items }
    {
        self.items.as_slice()
    }
}
