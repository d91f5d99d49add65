//! The tokens of a filter's text.

use crate::term::{Join, Op};

/// What a token is.
#[derive(Clone, Copy, PartialEq, Eq, Debug)]
pub enum Token {
    /// `!`.
    Bang,
    /// `(`.
    Open,
    /// `)`.
    Close,
    /// `&&`.
    Both,
    /// `||`.
    Either,
    /// `+`, `-` or `%`.
    Joins(Join),
    /// A comparison: one of its signs, or the word `has`.
    Compares(Op),
    /// The word `true`.
    TrueWord,
    /// The word `false`.
    FalseWord,
    /// The word `native`.
    NativeWord,
    /// The name of the fact at this place, from 0 to 19.
    FactName(u8),
    /// Any other name.
    UnknownWord,
    /// A number up to 2^64 - 1.
    Numeral(u64),
    /// A number over 2^64 - 1.
    BigNumeral,
    /// An IPv4 address in its dotted form.
    Quad(u32),
    /// Bytes that begin no token.
    Bad,
    /// The end of the text.
    End,
}
