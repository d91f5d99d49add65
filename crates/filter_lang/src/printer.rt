//! From a filter to its text.

ghost use Rattle.std.specs.Prelude.{◌≡◌, ◌≤◌, ◌++◌, codes, string_bytes, IfOk, OnOk};
ghost use Rattle.std.specs.Fmt.{decimal};
ghost use Rattle.filter_lang.specs.Grammar.{filter};
ghost use Rattle.filter_lang.specs.Printed.{atom_text, join_text, op_text, steps_text, sum_text, wrap, separator_text, joined_text, is_or, is_chain, is_wide, nesting, printed, and_texts, or_texts};
ghost use Rattle.filter_lang.specs.Shape.{shape, shapes, IsWithin, AreWithin, AtomIsWithin, SumIsWithin};

use crate::expr::Expr;
use crate::lexeme::FACTS;
use crate::term::{Atom, Join, Op, Step, Sum, Term};
use std::alloc::{AllocError, Global};

/// The one printed text of a filter: one blank between tokens, numbers in decimal, and parentheses only
/// where they are needed or round a comparison under `!`.
pub fn print(alloc: Global, e: &Expr) -> Result<String, AllocError>
    ensures text { IfOk result (λ text. string_bytes text ≡ printed e.now) }

    // The printed text is a filter again, and the same one.
    ensures again { IfOk result
        (λ text. nesting e.now ≤ 32 → filter (string_bytes text) ≡ Ok e.now) }
{
    let mut out = String::new(alloc);
    write_term(&mut out, e.term())?;
    Ok(out)
}

// Puts the text of a term at the end.
#[cycle(write)]
fn write_term(out: &mut String, term: &Term) -> Result<(), AllocError>
    requires { IsWithin (shape term.now) }
    ensures { OnOk result (string_bytes out.new ≡ string_bytes out.old ++ printed (shape term.now)) }
{
    match term {
        Term::True => out.push_str("true"),
        Term::False => out.push_str("false"),
        Term::Native(which) => {
            out.push_str("native ")?;
            write_number(out, u64::from(*which))
        }
        Term::Cmp(left, op, right) => {
            write_sum(out, left)?;
            out.push_str(op_text(*op))?;
            write_sum(out, right)
        }
        Term::Not(inner) => {
            out.push_str("!")?;
            write_wrapped(out, inner, is_wide(inner))
        }
        Term::And(members) => write_all(out, &members.items),
        Term::Or(members) => write_any(out, &members.items),
    }
}

// Puts the text of a term at the end, in parentheses where `wide` is true.
#[cycle(write)]
fn write_wrapped(out: &mut String, term: &Term, wide: bool) -> Result<(), AllocError>
    requires { IsWithin (shape term.now) }
    ensures { OnOk result
        (string_bytes out.new ≡ string_bytes out.old ++ wrap wide (printed (shape term.now))) }
{
    if !wide {
        return write_term(out, term);
    }
    out.push_str("(")?;
    write_term(out, term)?;
    out.push_str(")")
}

// Puts the members of an `&&` chain at the end.
#[cycle(write)]
fn write_all(out: &mut String, terms: &[Term]) -> Result<(), AllocError>
    requires { AreWithin (shapes terms.now) }
    ensures { OnOk result
        (string_bytes out.new ≡ string_bytes out.old ++ joined_text (codes " && ") (and_texts (shapes terms.now))) }
{
    for (i, term) in terms.iter().enumerate() {
        separate(out, i, " && ")?;
        write_wrapped(out, term, is_chain(term))?;
    }
    Ok(())
}

// Puts the members of an `||` chain at the end.
#[cycle(write)]
fn write_any(out: &mut String, terms: &[Term]) -> Result<(), AllocError>
    requires { AreWithin (shapes terms.now) }
    ensures { OnOk result
        (string_bytes out.new ≡ string_bytes out.old ++ joined_text (codes " || ") (or_texts (shapes terms.now))) }
{
    for (i, term) in terms.iter().enumerate() {
        separate(out, i, " || ")?;
        write_wrapped(out, term, is_or(term))?;
    }
    Ok(())
}

// Puts the separator of a chain at the end, unless its first member comes next.
fn separate(out: &mut String, i: usize, separator: &str) -> Result<(), AllocError>
    ensures { OnOk result
        (string_bytes out.new ≡ string_bytes out.old ++ separator_text i separator.now) }
{
    if i == 0 {
        return Ok(());
    }
    out.push_str(separator)
}

// Whether the term is an `||` chain.
fn is_or(term: &Term) -> bool
    ensures { result ≡ is_or (shape term.now) }
{
    matches!(term, Term::Or(_))
}

// Whether the term is a chain.
fn is_chain(term: &Term) -> bool
    ensures { result ≡ is_chain (shape term.now) }
{
    matches!(term, Term::And(_) | Term::Or(_))
}

// Whether the term is a comparison or a chain.
fn is_wide(term: &Term) -> bool
    ensures { result ≡ is_wide (shape term.now) }
{
    matches!(term, Term::Cmp(_, _, _) | Term::And(_) | Term::Or(_))
}

// Puts the text of a sum at the end.
fn write_sum(out: &mut String, sum: &Sum) -> Result<(), AllocError>
    requires { SumIsWithin sum.now }
    ensures { OnOk result (string_bytes out.new ≡ string_bytes out.old ++ sum_text sum.now) }
{
    write_atom(out, &sum.first)?;
    for step in sum.rest.as_slice() {
        write_step(out, step)?;
    }
    Ok(())
}

// Puts one atom more of a sum at the end, with how it is joined on.
fn write_step(out: &mut String, step: &Step) -> Result<(), AllocError>
    requires { AtomIsWithin step.now.1 }
    ensures { OnOk result
        (string_bytes out.new
        ≡ string_bytes out.old ++ (join_text step.now.0 ++ atom_text step.now.1)) }
{
    out.push_str(join_text(step.0))?;
    write_atom(out, &step.1)
}

// Puts the text of an atom at the end.
fn write_atom(out: &mut String, atom: &Atom) -> Result<(), AllocError>
    requires { AtomIsWithin atom.now }
    ensures { OnOk result (string_bytes out.new ≡ string_bytes out.old ++ atom_text atom.now) }
{
    match atom {
        Atom::Fact(place) => out.push_str(FACTS[usize::from(*place)]),
        Atom::Number(n) => write_number(out, *n),
    }
}

// Puts a number at the end, in decimal.
fn write_number(out: &mut String, n: u64) -> Result<(), AllocError>
    ensures { OnOk result (string_bytes out.new ≡ string_bytes out.old ++ decimal n) }
{
    write!(out, "{n}")
}

// The text that joins an atom on, with the blanks beside it.
fn join_text(join: Join) -> &'static str
    ensures { result.now ≡ join_text join }
{
    match join {
        Join::Plus => " + ",
        Join::Minus => " - ",
        Join::Rem => " % ",
    }
}

// The text of a comparison, with the blanks beside it.
fn op_text(op: Op) -> &'static str
    ensures { result.now ≡ op_text op }
{
    match op {
        Op::Eq => " = ",
        Op::Ne => " != ",
        Op::Lt => " < ",
        Op::Le => " <= ",
        Op::Gt => " > ",
        Op::Ge => " >= ",
        Op::Has => " has ",
    }
}
