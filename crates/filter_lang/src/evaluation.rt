//! What a filter says of the facts of a raise.

ghost use Rattle.std.specs.Prelude.{◌≡◌};
ghost use Rattle.filter_lang.specs.Meaning.{meaning, all_mean, any_means, sum_value, atom_value, joined_value, compared};
ghost use Rattle.filter_lang.specs.Shape.{shape, shapes, IsWithin, AreWithin, SumIsWithin, AtomIsWithin};

use crate::expr::Expr;
use crate::natives::Natives;
use crate::term::{Atom, Join, Op, Sum, Term};
use native_filters::{Facts, NativeBook};

/// Whether the filter is true of the facts. It takes no memory.
///
/// Sums are evaluated from the left, `+` and `-` modulo 2^64, and `x % 0` is 0.
pub fn eval(e: &Expr, facts: &Facts, natives: &NativeBook) -> bool
    ensures { result ≡ meaning e.now facts.now }
{
    match e.term() {
        // Most filters are one comparison, which needs no walk.
        Term::Cmp(left, op, right) => holds(left, *op, right, facts),
        term => truth(term, facts, natives),
    }
}

// Whether a term is true of the facts.
#[cycle(truth)]
fn truth<N: Natives>(term: &Term, facts: &Facts, natives: &N) -> bool
    requires { IsWithin (shape term.now) }
    ensures { result ≡ meaning (shape term.now) facts.now }
{
    match term {
        Term::True => true,
        Term::False => false,
        Term::Native(which) => natives.ask(*which, facts),
        Term::Cmp(left, op, right) => holds(left, *op, right, facts),
        Term::Not(inner) => !truth(inner, facts, natives),
        Term::And(members) => all_true(&members.items, facts, natives),
        Term::Or(members) => any_true(&members.items, facts, natives),
    }
}

// Whether all terms are true of the facts.
#[cycle(truth)]
fn all_true<N: Natives>(terms: &[Term], facts: &Facts, natives: &N) -> bool
    requires { AreWithin (shapes terms.now) }
    ensures { result ≡ all_mean (shapes terms.now) facts.now }
{
    for term in terms {
        if !truth(term, facts, natives) {
            return false;
        }
    }
    true
}

// Whether one or more terms are true of the facts.
#[cycle(truth)]
fn any_true<N: Natives>(terms: &[Term], facts: &Facts, natives: &N) -> bool
    requires { AreWithin (shapes terms.now) }
    ensures { result ≡ any_means (shapes terms.now) facts.now }
{
    for term in terms {
        if truth(term, facts, natives) {
            return true;
        }
    }
    false
}

// Whether a comparison is true of the facts.
#[inline(always)]
fn holds(left: &Sum, op: Op, right: &Sum, facts: &Facts) -> bool
    requires left { SumIsWithin left.now }
    requires right { SumIsWithin right.now }
    ensures { result ≡ compared (sum_value facts.now left.now) op (sum_value facts.now right.now) }
{
    compare(value(left, facts), op, value(right, facts))
}

// The number that a sum makes, from the left.
#[inline(always)]
fn value(sum: &Sum, facts: &Facts) -> u64
    requires { SumIsWithin sum.now }
    ensures { result ≡ sum_value facts.now sum.now }
{
    let mut value = atom(&sum.first, facts);
    for step in sum.rest.as_slice() {
        value = join(value, step.0, atom(&step.1, facts));
    }
    value
}

// The number that an atom names.
#[inline(always)]
fn atom(atom: &Atom, facts: &Facts) -> u64
    requires { AtomIsWithin atom.now }
    ensures { result ≡ atom_value facts.now atom.now }
{
    match atom {
        Atom::Fact(place) => facts.get(*place),
        Atom::Number(n) => *n,
    }
}

// A number joined to what stands left of it.
#[inline(never)]
fn join(left: u64, join: Join, right: u64) -> u64
    ensures { result ≡ joined_value left join right }
{
    match join {
        Join::Plus => left.wrapping_add(right),
        Join::Minus => left.wrapping_sub(right),
        Join::Rem => left.checked_rem(right).unwrap_or(0),
    }
}

// Whether two numbers compare so.
#[inline(always)]
fn compare(left: u64, op: Op, right: u64) -> bool
    ensures { result ≡ compared left op right }
{
    match op {
        Op::Eq => left == right,
        Op::Ne => left != right,
        Op::Lt => left < right,
        Op::Le => left <= right,
        Op::Gt => left > right,
        Op::Ge => left >= right,
        Op::Has => left & right == right,
    }
}
