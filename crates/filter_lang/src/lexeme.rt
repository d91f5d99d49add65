//! The token at the front of a text.

ghost use Rattle.std.specs.Prelude.{◌≡◌, ◌≤◌, ◌<◌, ◌&&◌, ◌^◌, ◌==◌, slice_index, take, true, false, length, IsTrue, IfSome, MatchOption, get_or, []};
ghost use Rattle.std.specs.Char.{is_ascii_digit, is_ascii_hexdigit, is_ascii_lowercase};
ghost use Rattle.std.specs.List.{position_from, prefix_len};
ghost use Rattle.std.specs.Option.{option_map, unwrap_or};
ghost use Rattle.std.specs.Str.{bytes_eq};
ghost use Rattle.std.specs.Str.Parse.{IsNumeral, digits_value};
ghost use Rattle.filter_lang.specs.declared.token.Token.TheVariants.{FactName, UnknownWord};
ghost use Rattle.filter_lang.specs.Lexer.{Finds};
ghost use Rattle.filter_lang.specs.Tokens.{is_blank, lexeme, fact_names, word_token, name_at, numeral_token, begins_hex, hex_at, dotted_part, last_part, quad_from, decimal_at, number_at, signs, sign_in, token_at};

use crate::term::{Join, Op};
use crate::token::Token;
use number_text::octet;
use std::str::from_utf8;

/// A token at the front of a text.
#[derive(Clone, Copy, PartialEq, Eq, Debug)]
pub struct Lexeme {
    /// The token.
    pub token: Token,
    /// How many bytes it has.
    pub len: usize,
}

impl Lexeme {
    ghost use Rattle.filter_lang.specs.Tokens.{lexeme};

    // A token of so many bytes.
    fn new(token: Token, len: usize) -> Lexeme
        ensures { result ≡ lexeme token len }
    {
        Lexeme { token, len }
    }
}

/// The token at the front of a text that begins with no blank, the longest that fits.
#[tactic(auto, unfolding(crate::specs::Tokens::token_at))]
pub(crate) fn token_at(bytes: &[u8]) -> Lexeme
    requires { 0 < length bytes.now }
    ensures { Finds token_at bytes.now result }
{
    if bytes[0].is_ascii_digit() {
        number_at(bytes)
    } else if bytes[0].is_ascii_lowercase() {
        name_at(bytes)
    } else {
        sign_at(bytes)
    }
}

/// How many blanks and tabs the text begins with.
pub(crate) fn blanks(bytes: &[u8]) -> usize
    ensures value { result ≡ prefix_len is_blank bytes.now }
    ensures within { result ≤ length bytes.now }
{
    bytes
        .iter()
        .take_while(|b| **b == b' ' || **b == b'\t')
        .count()
}

// How many decimal digits the text begins with.
fn digits(bytes: &[u8]) -> usize
    ensures { result ≡ prefix_len is_ascii_digit bytes.now }
{
    bytes.iter().take_while(|b| b.is_ascii_digit()).count()
}

// How many hexadecimal digits the text begins with.
fn hex_digits(bytes: &[u8]) -> usize
    ensures { result ≡ prefix_len is_ascii_hexdigit bytes.now }
{
    bytes.iter().take_while(|b| b.is_ascii_hexdigit()).count()
}

// How many lower-case letters the text begins with.
fn letters(bytes: &[u8]) -> usize
    ensures { result ≡ prefix_len is_ascii_lowercase bytes.now }
{
    bytes.iter().take_while(|b| b.is_ascii_lowercase()).count()
}

// The name at the front of the text.
fn name_at(bytes: &[u8]) -> Lexeme
    requires { 0 < prefix_len is_ascii_lowercase bytes.now }
    ensures { Finds name_at bytes.now result }
{
    let len = letters(bytes);
    Lexeme::new(word_token(&bytes[..len]), len)
}

// The token that a name is.
fn word_token(name: &[u8]) -> Token
    ensures { result ≡ word_token name.now }
{
    if is(name, "true") {
        return Token::TrueWord;
    }
    if is(name, "false") {
        return Token::FalseWord;
    }
    if is(name, "native") {
        return Token::NativeWord;
    }
    if is(name, "has") {
        return Token::Compares(Op::Has);
    }
    fact_token(name)
}

// Whether the name is this word.
fn is(name: &[u8], word: &str) -> bool
    ensures { result ≡ bytes_eq name.now word.now }
{
    name == word.as_bytes()
}

/// The names of the facts, in the order of their places.
pub(crate) const FACTS: [&str; 20] = [
    "dir", "nth", "src", "dst", "sport", "dport", "seq", "ack", "flags", "win", "len", "ttl",
    "old", "new", "fresh", "rexlen", "rexdiff", "fault", "next", "class",
];

// The name of the fact at a place.
fn fact_name(place: usize) -> &'static str
    requires { place < 20 }
    ensures { result.now ≡ get_or fact_names place [] }
{
    FACTS[place]
}

// The token of a name that is no word of the grammar.
fn fact_token(name: &[u8]) -> Token
    ensures { result
        ≡ unwrap_or (option_map FactName (position_from (bytes_eq name.now) 0 fact_names)) UnknownWord }
{
    for place in 0..FACTS.len() {
        if is(name, fact_name(place)) {
            return Token::FactName(place as u8);
        }
    }
    Token::UnknownWord
}

// The number, or the dotted address, at the front of the text.
fn number_at(bytes: &[u8]) -> Lexeme
    requires { 0 < prefix_len is_ascii_digit bytes.now }
    ensures { Finds number_at bytes.now result }
{
    if begins_hex(bytes) {
        hex_at(bytes)
    } else {
        decimal_at(bytes)
    }
}

// Whether the text begins with `0x` and a hexadecimal digit.
fn begins_hex(bytes: &[u8]) -> bool
    ensures value { result ≡ begins_hex bytes.now }
    ensures within { IsTrue result → 3 ≤ length bytes.now }
{
    bytes.len() > 2 && bytes[0] == b'0' && bytes[1] == b'x' && bytes[2].is_ascii_hexdigit()
}

// The hexadecimal number at the front of the text.
fn hex_at(bytes: &[u8]) -> Lexeme
    requires { IsTrue (begins_hex bytes.now) }
    ensures { Finds hex_at bytes.now result }
{
    let rest = &bytes[2..];
    let len = hex_digits(rest);
    Lexeme::new(numeral_token(&rest[..len], 16), len + 2)
}

// The decimal number, or the dotted address, at the front of the text.
fn decimal_at(bytes: &[u8]) -> Lexeme
    requires { 0 < prefix_len is_ascii_digit bytes.now }
    ensures { Finds decimal_at bytes.now result }
{
    let len = digits(bytes);
    if is_dot(bytes, len) {
        return quad_at(bytes);
    }
    Lexeme::new(numeral_token(&bytes[..len], 10), len)
}

// Whether a dot stands at this offset.
fn is_dot(bytes: &[u8], at: usize) -> bool
    ensures value { result ≡ (slice_index bytes.now at == 46) }
    ensures within { IsTrue result → at < length bytes.now }
{
    at < bytes.len() && bytes[at] == b'.'
}

// The token of a number with these digits.
fn numeral_token(digits: &[u8], radix: u32) -> Token
    requires low { 2 ≤ radix }
    requires high { radix ≤ 16 }
    requires numeral { IsNumeral radix digits.now }
    ensures { result ≡ numeral_token (digits_value radix digits.now) }
{
    match value(digits, radix) {
        Some(n) => Token::Numeral(n),
        None => Token::BigNumeral,
    }
}

// The number that the digits write, where it is below 2^64.
fn value(digits: &[u8], radix: u32) -> Option<u64>
    requires low { 2 ≤ radix }
    requires high { radix ≤ 16 }
    requires numeral { IsNumeral radix digits.now }
    ensures { MatchOption result (2 ^ 64 ≤ digits_value radix digits.now)
        (λ n. n ≡ digits_value radix digits.now) }
{
    match from_utf8(digits) {
        Ok(text) => u64::from_str_radix(text, radix).ok(),
        Err(_) => None,
    }
}

// The dotted address at the front of the text, or a bad token of one byte where there is none.
fn quad_at(bytes: &[u8]) -> Lexeme
    requires { 0 < length bytes.now }
    ensures { Finds (quad_from 3 0 0) bytes.now result }
{
    let mut address = 0u32;
    let mut len = 0;
    for _part in 0u8..3 {
        let Some((number, more)) = dotted_part(&bytes[len..]) else {
            return Lexeme::new(Token::Bad, 1);
        };
        address = address * 256 + number;
        len += more;
    }
    match last_part(&bytes[len..]) {
        Some((number, more)) => Lexeme::new(Token::Quad(address * 256 + number), len + more),
        None => Lexeme::new(Token::Bad, 1),
    }
}

// A part of a dotted address with the dot behind it: its number, and the length of both.
fn dotted_part(bytes: &[u8]) -> Option<(u32, usize)>
    ensures value { result ≡ dotted_part bytes.now }
    ensures small { IfSome result (λ found. found.0 < 256) }
    ensures some { IfSome result (λ found. 0 < found.1) }
    ensures within { IfSome result (λ found. found.1 ≤ length bytes.now) }
{
    let len = digits(bytes);
    if !is_dot(bytes, len) {
        return None;
    }
    let number = octet(&bytes[..len])?;
    Some((number, len + 1))
}

// The last part of a dotted address: its number and its length, the longest that fits.
fn last_part(bytes: &[u8]) -> Option<(u32, usize)>
    ensures value { result ≡ last_part bytes.now }
    ensures small { IfSome result (λ found. found.0 < 256) }
    ensures within { IfSome result (λ found. found.1 ≤ length bytes.now) }
{
    let len = digits(bytes);
    let (most, fewer) = (len.min(3), len.min(2));
    match octet(&bytes[..most]) {
        Some(number) => Some((number, most)),
        None => Some((octet(&bytes[..fewer])?, fewer)),
    }
}

/// The signs, longer ones first, each with its token.
const SIGNS: &[(&str, Token)] = &[
    ("!=", Token::Compares(Op::Ne)),
    ("<=", Token::Compares(Op::Le)),
    (">=", Token::Compares(Op::Ge)),
    ("&&", Token::Both),
    ("||", Token::Either),
    ("=", Token::Compares(Op::Eq)),
    ("<", Token::Compares(Op::Lt)),
    (">", Token::Compares(Op::Gt)),
    ("!", Token::Bang),
    ("(", Token::Open),
    (")", Token::Close),
    ("+", Token::Joins(Join::Plus)),
    ("-", Token::Joins(Join::Minus)),
    ("%", Token::Joins(Join::Rem)),
];

// The sign at the front of the text.
fn sign_at(bytes: &[u8]) -> Lexeme
    requires { 0 < length bytes.now }
    ensures { Finds (sign_in signs) bytes.now result }
{
    for &(sign, token) in SIGNS {
        if bytes.starts_with(sign.as_bytes()) {
            return Lexeme {
                token,
                len: sign.len(),
            };
        }
    }
    Lexeme::new(Token::Bad, 1)
}
