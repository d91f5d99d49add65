//! From a text to the filter that it is.

ghost use Rattle.std.specs.Prelude.{◌≡◌, ◌≢◌, ◌≤◌, ◌<◌, false, length, IfOk, IfErr, OnOk};
ghost use Rattle.filter_lang.specs.Grammar.{filter};
ghost use Rattle.filter_lang.specs.Lexer.{ahead, later};
ghost use Rattle.filter_lang.specs.Words.{is_end};
ghost use Rattle.filter_lang.specs.Parser.{Parses, ReadsAtom, RefusesAtom, ReadsSum, RefusesSum, ReadsOp, RefusesOp, ReadsComparison, RefusesComparison, ReadsNative, RefusesNative, ReadsUnit, RefusesUnit, Closes, RefusesClose, ReadsConjunction, RefusesConjunction, ReadsExpr, RefusesExpr};
ghost use Rattle.filter_lang.specs.Shape.{shape, AtomIsWithin, SumIsWithin, IsWithin};

use crate::error::FilterError;
use crate::expr::Expr;
use crate::lexer::Lexer;
use crate::term::{Atom, Op, StepList, Sum, Term, TermList};
use crate::token::Token;
use std::alloc::Global;

/// How many `!` and `(` may be open at once.
const MAX_OPEN: u32 = 32;

// An atom.
fn atom(lexer: &mut Lexer) -> Result<Atom, FilterError>
    ensures { Parses ReadsAtom RefusesAtom lexer.old lexer.new result }
{
    let atom = match lexer.token {
        Token::FactName(place) => Atom::Fact(place),
        Token::Numeral(n) => number(n),
        Token::Quad(n) => number(u64::from(n)),
        Token::BigNumeral => return Err(FilterError::BigNumber(lexer.at)),
        Token::UnknownWord => return Err(FilterError::UnknownName(lexer.at)),
        _ => return Err(FilterError::Syntax(lexer.at)),
    };
    lexer.advance();
    Ok(atom)
}

// The atom of a number.
fn number(n: u64) -> Atom
    ensures value { result ≡ Atom.Number n }
    ensures within { AtomIsWithin result }
{
    Atom::Number(n)
}

// The sign, or the word, of a comparison.
fn operator(lexer: &mut Lexer) -> Result<Op, FilterError>
    ensures { Parses ReadsOp RefusesOp lexer.old lexer.new result }
{
    let Token::Compares(op) = lexer.token else {
        return Err(FilterError::Syntax(lexer.at));
    };
    lexer.advance();
    Ok(op)
}

// A sum: atoms, joined from the left. It is read without recursion.
fn sum(alloc: Global, lexer: &mut Lexer) -> Result<Sum, FilterError>
    ensures { Parses ReadsSum RefusesSum lexer.old lexer.new result }
{
    let first = atom(lexer)?;
    let mut rest = StepList::new(alloc);
    while let Token::Joins(join) = lexer.token {
        lexer.advance();
        let atom = atom(lexer)?;
        rest.push((join, atom))?;
    }
    Ok(Sum { first, rest })
}

// A comparison of two sums.
fn comparison(alloc: Global, lexer: &mut Lexer) -> Result<Term, FilterError>
    ensures { Parses ReadsComparison RefusesComparison lexer.old lexer.new result }
{
    let left = sum(alloc, lexer)?;
    let op = operator(lexer)?;
    let right = sum(alloc, lexer)?;
    Ok(Term::Cmp(left, op, right))
}

// The number of a native filter.
fn native(lexer: &mut Lexer) -> Result<Term, FilterError>
    ensures { Parses ReadsNative RefusesNative lexer.old lexer.new result }
{
    let which = match lexer.token {
        Token::Numeral(n) if n < 6 => n as u8,
        Token::Numeral(_) => return Err(FilterError::UnknownName(lexer.at)),
        Token::BigNumeral => return Err(FilterError::BigNumber(lexer.at)),
        _ => return Err(FilterError::Syntax(lexer.at)),
    };
    lexer.advance();
    Ok(Term::Native(which))
}

// A unit of an `&&` chain, inside `depth` constructs that are open.
#[cycle(parse)]
fn unit(alloc: Global, lexer: &mut Lexer, depth: u32) -> Result<Term, FilterError>
    requires { depth ≤ 32 }
    ensures { Parses (ReadsUnit depth) (RefusesUnit depth) lexer.old lexer.new result }
{
    match lexer.token {
        Token::Bang => {
            enter(lexer, depth)?;
            let inner = unit(alloc, lexer, depth + 1)?;
            Ok(Term::Not(Box::new(alloc, inner)?))
        }
        Token::Open => {
            enter(lexer, depth)?;
            let inner = expr(alloc, lexer, depth + 1)?;
            close(lexer)?;
            Ok(inner)
        }
        Token::TrueWord => {
            lexer.advance();
            Ok(Term::True)
        }
        Token::FalseWord => {
            lexer.advance();
            Ok(Term::False)
        }
        Token::NativeWord => {
            lexer.advance();
            native(lexer)
        }
        _ => comparison(alloc, lexer),
    }
}

// The `!` or `(` that opens one construct more.
fn enter(lexer: &mut Lexer, depth: u32) -> Result<(), FilterError>
    requires { is_end lexer.old.token ≡ false }
    ensures ok { OnOk result ((depth ≢ 32) × (later lexer.old ≡ ahead lexer.new)) }
    ensures err { IfErr result (λ e. (depth ≡ 32) × (e ≡ FilterError.TooDeep lexer.old.at)) }
    ensures left { length (later lexer.new) ≤ length (later lexer.old) }
{
    if depth == MAX_OPEN {
        return Err(FilterError::TooDeep(lexer.at));
    }
    lexer.advance();
    Ok(())
}

// The `)` behind an expression.
fn close(lexer: &mut Lexer) -> Result<(), FilterError>
    ensures { Parses (λ l m _. Closes l m) RefusesClose lexer.old lexer.new result }
{
    let Token::Close = lexer.token else {
        return Err(FilterError::Syntax(lexer.at));
    };
    lexer.advance();
    Ok(())
}

// A chain of units joined by `&&`, inside `depth` constructs that are open.
#[cycle(parse)]
fn conjunction(alloc: Global, lexer: &mut Lexer, depth: u32) -> Result<Term, FilterError>
    requires { depth ≤ 32 }
    ensures { Parses (ReadsConjunction depth) (RefusesConjunction depth) lexer.old lexer.new result }
{
    let first = unit(alloc, lexer, depth)?;
    let Token::Both = lexer.token else {
        return Ok(first);
    };
    let mut items = Vec::new(alloc);
    items.push(first)?;
    while let Token::Both = lexer.token {
        lexer.advance();
        let next = unit(alloc, lexer, depth)?;
        items.push(next)?;
    }
    Ok(Term::And(TermList { items }))
}

// A chain of conjunctions joined by `||`, inside `depth` constructs that are open.
#[cycle(parse)]
fn expr(alloc: Global, lexer: &mut Lexer, depth: u32) -> Result<Term, FilterError>
    requires { depth ≤ 32 }
    ensures { Parses (ReadsExpr depth) (RefusesExpr depth) lexer.old lexer.new result }
{
    let first = conjunction(alloc, lexer, depth)?;
    let Token::Either = lexer.token else {
        return Ok(first);
    };
    let mut items = Vec::new(alloc);
    items.push(first)?;
    while let Token::Either = lexer.token {
        lexer.advance();
        let next = conjunction(alloc, lexer, depth)?;
        items.push(next)?;
    }
    Ok(Term::Or(TermList { items }))
}

/// The filter that the text is.
///
/// # Errors
///
/// The first token, from the left, with which no filter goes on, at its offset in bytes, or at the
/// text's length where the text ends too early; or `NoMemory`.
pub fn parse(alloc: Global, text: &str) -> Result<Expr, FilterError>
    ensures ok { IfOk result (λ e. filter text.now ≡ Ok e) }
    ensures err { IfErr result (λ e. e ≢ FilterError.NoMemory → filter text.now ≡ Err e) }
{
    let mut lexer = Lexer::new(text.as_bytes());
    let term = expr(alloc, &mut lexer, 0)?;
    let Token::End = lexer.token else {
        return Err(FilterError::Syntax(lexer.at));
    };
    Ok(Expr::new(term))
}
