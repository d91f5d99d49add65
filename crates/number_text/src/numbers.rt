//! Decimal numbers, and parts of dotted addresses.

ghost use Rattle.std.specs.Prelude.{◌≡◌, ◌≤◌, ◌<◌, ◌^◌, length, MatchOption, IfSome, IsTrue};
ghost use Rattle.std.specs.Char.{is_ascii_digit};
ghost use Rattle.std.specs.List.{list_all};
ghost use Rattle.std.specs.Str.Parse.{digits_value};
ghost use Rattle.number_text.specs.Numbers.{are_digits, is_number, number_between, octet};

use std::str::from_utf8;

/// The number that a text writes, where it is from `low` to `high`: decimal digits, the first of several not 0.
pub fn number_in(low: u64, high: u64, text: &[u8]) -> Option<u64>
    ensures number { result ≡ number_between low high text.now }
    ensures low { IfSome result (λ n. low ≤ n) }
    ensures high { IfSome result (λ n. n ≤ high) }
    ensures some { IfSome result (λ n. 0 < length text.now) }
{
    if !is_number(text) {
        return None;
    }
    match value(text) {
        Some(n) if low <= n && n <= high => Some(n),
        _ => None,
    }
}

/// A part of a dotted address: one to three decimal digits of at most 255.
pub fn octet(text: &[u8]) -> Option<u32>
    ensures octet { result ≡ octet text.now }
    ensures high { IfSome result (λ n. n ≤ 255) }
{
    if !are_digits(text) || text.len() > 3 {
        return None;
    }
    match value(text) {
        Some(n) if n <= 255 => Some(n as u32),
        _ => None,
    }
}

// Whether a text is decimal digits, the first of several not 0.
fn is_number(text: &[u8]) -> bool
    ensures value { result ≡ is_number text.now }
    ensures digits { IsTrue result → IsTrue (are_digits text.now) }
{
    are_digits(text) && !(text.len() > 1 && text[0] == b'0')
}

// Whether a text is decimal digits, one or more.
fn are_digits(text: &[u8]) -> bool
    ensures { result ≡ are_digits text.now }
{
    !text.is_empty() && all_digits(text)
}

// Whether each byte is a decimal digit.
fn all_digits(text: &[u8]) -> bool
    ensures { result ≡ list_all is_ascii_digit text.now }
{
    text.iter().all(|b| b.is_ascii_digit())
}

// The number that digits write, where it is below 2^64.
fn value(digits: &[u8]) -> Option<u64>
    requires digits { IsTrue (are_digits digits.now) }
    ensures { MatchOption result (2 ^ 64 ≤ digits_value 10 digits.now) (λ n. n ≡ digits_value 10 digits.now) }
{
    match from_utf8(digits) {
        Ok(text) => text.parse::<u64>().ok(),
        Err(_) => None,
    }
}
