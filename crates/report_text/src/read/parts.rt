//! Reads the parts of a line, tolerantly: names of classes, hooks and events, endpoints, and what a callback saw.

ghost use Rattle.std.specs.Prelude.{◌≡◌, ◌%◌, ◌^◌, IfOk};
ghost use Rattle.report_text.specs.ReadWords.{first_word, skip, decimal_of, class_of, hook_of, event_of, reason_of, v4_of, group_of, joined, v6_of, is_v6, endpoint_of, after_endpoint, bytes_of, pieces_of, seen_of};

use super::words::{decimal, decimal_u8, decimal_u16, first, first_word, number, second, skip};
use app_api::{Bytes, PieceList, Reason, Seen, event_named};
use flow_table::Endpoint;
use hex::FromHexError;
use native_filters::Hook;
use packet_views::Class;
use std::alloc::{AllocError, Global};
use std::net::Ipv4Addr;

pub(super) fn class_of(text: &[u8]) -> Class
    ensures { result ≡ class_of text.now }
{
    match first(text) {
        b't' => Class::Tcp,
        b'o' => Class::Other,
        b'f' => Class::Fragment,
        b'c' => Class::Cut,
        _ => Class::Bad,
    }
}

pub(super) fn hook_of(text: &[u8]) -> Hook
    ensures { result ≡ hook_of text.now }
{
    if first(text) == b's' {
        Hook::Snd
    } else {
        Hook::Rcv
    }
}

// A built-in event's name, or 0 where there is none such; or a number, which is below the letters.
pub(super) fn event_of(text: &[u8]) -> u16
    ensures { result ≡ event_of text.now }
{
    if first(text) < b'a' {
        return decimal_u16(text);
    }
    event_named(first_word(text)).unwrap_or(0)
}

pub(super) fn reason_of(text: &[u8]) -> Reason
    ensures { result ≡ reason_of text.now }
{
    let number = decimal_u8(skip(text, 1));
    if second(text) == b'e' {
        Reason::Reg(number)
    } else {
        Reason::Rule(number)
    }
}

#[tactic(auto, unfolding(std::specs::Net::Addr::ipv4_bits))]
fn v4_of(text: &[u8]) -> Endpoint
    ensures { result ≡ v4_of text.now }
{
    let addr = Ipv4Addr::new(
        decimal_u8(text),
        decimal_u8(skip(text, 1)),
        decimal_u8(skip(text, 2)),
        decimal_u8(skip(text, 3)),
    );
    Endpoint::V4 {
        addr: addr.to_bits(),
        port: decimal_u16(skip(text, 4)),
    }
}

// One of the groups of 16 bits.
fn group_of(text: &[u8], words: u8) -> u16
    ensures { result ≡ group_of words text.now }
{
    (number(skip(text, words), 16) % 0x1_0000) as u16
}

// The number of groups of 16 bits, the highest first, as 128 bits keep it.
fn joined(groups: &[u16]) -> u128
    ensures { result ≡ joined 0 groups.now }
{
    let mut addr: u128 = 0;
    for group in groups {
        addr = addr % (1 << 112) * 0x1_0000 + u128::from(*group);
    }
    addr
}

fn v6_of(text: &[u8]) -> Endpoint
    ensures { result ≡ v6_of text.now }
{
    let addr = joined(&[
        group_of(text, 1),
        group_of(text, 2),
        group_of(text, 3),
        group_of(text, 4),
        group_of(text, 5),
        group_of(text, 6),
        group_of(text, 7),
        group_of(text, 8),
    ]);
    let port = decimal_u16(skip(text, 10));
    Endpoint::V6 { addr, port }
}

fn is_v6(text: &[u8]) -> bool
    ensures { result ≡ is_v6 text.now }
{
    first(text) == b'['
}

pub(super) fn endpoint_of(text: &[u8]) -> Endpoint
    ensures { result ≡ endpoint_of text.now }
{
    if is_v6(text) {
        v6_of(text)
    } else {
        v4_of(text)
    }
}

// The text behind an endpoint.
pub(super) fn after_endpoint(text: &[u8]) -> &[u8]
    ensures { result.now ≡ after_endpoint text.now }
{
    if is_v6(text) {
        skip(text, 11)
    } else {
        skip(text, 5)
    }
}

// The bytes of pairs of digits. A dash is no such pair, and so no bytes.
fn bytes_of(alloc: Global, text: &[u8]) -> Result<Bytes, AllocError>
    ensures { IfOk result (λ b. b ≡ bytes_of text.now) }
{
    match hex::decode(alloc, first_word(text)) {
        Ok(items) => Ok(Bytes { items }),
        Err(FromHexError::OutOfMemory) => Err(AllocError),
        Err(_) => Ok(Bytes {
            items: Vec::new(alloc),
        }),
    }
}

// The pieces up to the end of the text.
fn pieces_of(alloc: Global, text: &[u8], most: usize) -> Result<PieceList, AllocError>
    ensures { IfOk result (λ p. p ≡ pieces_of most text.now) }
{
    let mut items = Vec::new(alloc);
    let mut rest = text;
    for _turn in 0..most {
        if rest.is_empty() {
            return Ok(PieceList { items });
        }
        items.push((decimal(rest), bytes_of(alloc, skip(rest, 1))?))?;
        rest = skip(rest, 2);
    }
    Ok(PieceList { items })
}

// A rest that begins with `p`, with `a`, or with neither.
pub(super) fn seen_of(alloc: Global, text: &[u8]) -> Result<Seen, AllocError>
    ensures { IfOk result (λ s. s ≡ seen_of text.now) }
{
    match first(text) {
        b'p' => Ok(Seen::Next {
            at: decimal(skip(text, 1)),
            missed: decimal(skip(text, 2)),
            bytes: bytes_of(alloc, skip(text, 3))?,
        }),
        b'a' => Ok(Seen::At {
            off: decimal(skip(text, 1)),
            pieces: pieces_of(alloc, skip(text, 2), text.len())?,
        }),
        _ => Ok(Seen::Nothing),
    }
}
