//! The filters in which authors say which packets matter. Text goes through a lexer and the parser and comes out as an
//! expression; `eval` asks it of facts, and `print` writes it.
//!
//! Contract: `parse` answers the filter that the grammar reads, or the first token with which no filter goes on, or that memory
//! was refused; `eval` is the definition's meaning, and `print` its one printed text.
//! Begin with `specs/Tokens.antt`, `specs/Grammar.antt` and `specs/Meaning.antt`; in the code with `src/lexer.rt`,
//! `src/parser.rt`, `src/evaluation.rt` and `src/expr.rt`.
//! Tests: `text_tests` (filters), `event_tests` (natives).
#![tactic(auto)]

mod error;
mod evaluation;
mod expr;
mod law;
mod lexeme;
mod lexer;
mod natives;
mod parser;
mod printer;
mod term;
mod token;

pub use error::FilterError;
pub use evaluation::eval;
pub use expr::Expr;
pub use law::first_refusal;
pub use parser::parse;
pub use printer::print;
pub use term::{Atom, Join, Op, Step, StepList, Sum, Term, TermList};
