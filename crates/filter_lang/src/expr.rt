//! A filter that is well formed at every level.

ghost use Rattle.std.specs.Prelude.{◌≡◌, IfOk};
ghost use Rattle.filter_lang.specs.Shape.{shape, shapes, IsWithin, SumIsWithin};

use crate::term::{StepList, Sum, Term, TermList};
use std::alloc::{AllocError, Global};
use std::marker::Model;

/// A filter. Contracts see it as its `Shape`, so two filters are equal where they are built alike.
///
/// At every level each chain of `&&` or `||` has two or more members, the place of each fact is at
/// most 19, and the number of each native filter at most 5.
#[derive(Drop)]
pub struct Expr {
    term: Term,
}

impl Model for Expr {
    ghost use Rattle.filter_lang.specs.Shape.{Shape, shape, IsWithin};
    ghost use Rattle.filter_lang.specs.ShapeCode.{shape_code};

    ghost Value = { Shape };

    ghost coded = { shape_code };

    ghost view = { λ e. shape e.term };

    ghost invariant = { λ e. IsWithin (shape e.term) };
}

impl Expr {
    /// The filter that is this term.
    pub(crate) fn new(term: Term) -> Expr
        requires { IsWithin (shape term) }
        ensures { result ≡ shape term }
    {
        Expr { term }
    }

    /// The term that the filter is.
    pub fn term(&self) -> &Term
        ensures shape { shape result.now ≡ self.now }
        ensures within { IsWithin self.now }
    {
        &self.term
    }

    /// The same filter once more.
    pub fn copy(&self, alloc: Global) -> Result<Expr, AllocError>
        ensures { IfOk result (λ e. e ≡ self.now) }
    {
        let term = copy_term(alloc, &self.term)?;
        Ok(Expr { term })
    }
}

// The same term once more.
#[cycle(copied)]
fn copy_term(alloc: Global, term: &Term) -> Result<Term, AllocError>
    ensures { IfOk result (λ t. shape t ≡ shape term.now) }
{
    match term {
        Term::True => Ok(Term::True),
        Term::False => Ok(Term::False),
        Term::Native(which) => Ok(Term::Native(*which)),
        Term::Cmp(left, op, right) => {
            let left = copy_sum(alloc, left)?;
            let right = copy_sum(alloc, right)?;
            Ok(Term::Cmp(left, *op, right))
        }
        Term::Not(inner) => {
            let inner = copy_term(alloc, inner)?;
            Ok(Term::Not(Box::new(alloc, inner)?))
        }
        Term::And(members) => {
            let items = copy_terms(alloc, &members.items)?;
            Ok(Term::And(TermList { items }))
        }
        Term::Or(members) => {
            let items = copy_terms(alloc, &members.items)?;
            Ok(Term::Or(TermList { items }))
        }
    }
}

// The same terms once more.
#[cycle(copied)]
fn copy_terms(alloc: Global, terms: &[Term]) -> Result<Vec<Term>, AllocError>
    ensures { IfOk result (λ ts. shapes ts.items ≡ shapes terms.now) }
{
    let mut copies = Vec::new(alloc);
    for term in terms {
        let copy = copy_term(alloc, term)?;
        copies.push(copy)?;
    }
    Ok(copies)
}

// The same sum once more.
fn copy_sum(alloc: Global, sum: &Sum) -> Result<Sum, AllocError>
    ensures { IfOk result (λ s. s ≡ sum.now) }
{
    let mut rest = StepList::new(alloc);
    for step in sum.rest.as_slice() {
        rest.push(*step)?;
    }
    Ok(Sum {
        first: sum.first,
        rest,
    })
}
