//! The parts of a line: names of classes, hooks and events, endpoints, and what a callback saw.

ghost use Rattle.std.specs.Prelude.{◌≡◌, ◌<◌, ◌++◌, [], ◌∷◌, false, codes, OnOk, string_bytes, flat_map};
ghost use Rattle.std.specs.Fmt.{decimal, digits, digit_glyph};
ghost use Rattle.std.specs.Net.Text.{ipv4_text};
ghost use Rattle.report_text.specs.Words.{class_text, hook_text, event_text, groups_of, groups_text, v6_text, endpoint_text, bytes_text, piece_text, seen_text, reason_text};

use app_api::{Bytes, Reason, Seen, event_name};
use flow_table::Endpoint;
use itoa::Buffer;
use native_filters::Hook;
use packet_views::Class;
use std::alloc::{AllocError, Global};
use std::net::{Ipv4Addr, Ipv6Addr};

// A number in decimal. Most numbers of a line have one digit, which takes no buffer.
#[tactic(auto, using(std::proofs::lemmas::Fmt::decimal_digit))]
#[inline(always)]
pub(crate) fn push_number(line: &mut String, n: u64) -> Result<(), AllocError>
    ensures { OnOk result (string_bytes line.new ≡ string_bytes line.old ++ decimal n) }
{
    if n < 10 {
        return line.push(char::from(b'0' + n as u8));
    }
    push_digits(line, n)
}

#[inline(never)]
fn push_digits(line: &mut String, n: u64) -> Result<(), AllocError>
    ensures { OnOk result (string_bytes line.new ≡ string_bytes line.old ++ decimal n) }
{
    line.push_str(Buffer::new().format(n))
}

// A text and behind it a number in decimal.
pub(crate) fn push_labelled(line: &mut String, label: &str, n: u64) -> Result<(), AllocError>
    ensures { OnOk result (string_bytes line.new ≡ string_bytes line.old ++ (label.now ++ decimal n)) }
{
    line.push_str(label)?;
    push_number(line, n)
}

pub(crate) fn class_name(class: Class) -> &'static str
    ensures { result.now ≡ class_text class }
{
    match class {
        Class::Tcp => "tcp",
        Class::Other => "other",
        Class::Fragment => "fragment",
        Class::Cut => "cut",
        Class::Bad => "bad",
    }
}

// A hook with a blank on either side.
pub(crate) fn hook_word(hook: Hook) -> &'static str
    ensures { result.now ≡ codes " " ++ (hook_text hook ++ codes " ") }
{
    match hook {
        Hook::Snd => " snd ",
        Hook::Rcv => " rcv ",
    }
}

// A built-in event by its name, a user-defined one by its number.
#[tactic(auto, unfolding(crate::specs::Words::event_text))]
pub(crate) fn push_event(line: &mut String, event: u16) -> Result<(), AllocError>
    ensures { OnOk result (string_bytes line.new ≡ string_bytes line.old ++ event_text event) }
{
    match event_name(event) {
        Some(name) => line.push_str(name),
        None => push_number(line, u64::from(event)),
    }
}

#[tactic(auto, unfolding(crate::specs::Words::groups_of, std::specs::Net::Addr::IsIpv6OfBits))]
pub(crate) fn groups(addr: u128) -> [u16; 8]
    ensures { result ≡ groups_of addr }
{
    Ipv6Addr::from_bits(addr).segments()
}

// A hexadecimal digit.
#[inline(always)]
fn push_digit(line: &mut String, n: u16) -> Result<(), AllocError>
    requires { n < 16 }
    ensures { OnOk result (string_bytes line.new ≡ string_bytes line.old ++ digit_glyph false n ∷ []) }
{
    let first = if n < 10 { b'0' } else { b'a' - 10 };
    line.push(char::from(first + n as u8))
}

// One or two hexadecimal digits.
#[tactic(auto, using(std::proofs::lemmas::Fmt::hex_one_digit))]
#[inline(always)]
fn push_short(line: &mut String, n: u16) -> Result<(), AllocError>
    requires { n < 256 }
    ensures { OnOk result (string_bytes line.new ≡ string_bytes line.old ++ digits 16 false n) }
{
    if n < 16 {
        return push_digit(line, n);
    }
    push_digit(line, n / 16)?;
    push_digit(line, n % 16)
}

// A number in hexadecimal, of one to four digits. An address has eight of them, so no formatter is asked.
fn push_group(line: &mut String, group: u16) -> Result<(), AllocError>
    ensures { OnOk result (string_bytes line.new ≡ string_bytes line.old ++ digits 16 false group) }
{
    if group < 256 {
        return push_short(line, group);
    }
    push_short(line, group / 256)?;
    push_digit(line, group / 16 % 16)?;
    push_digit(line, group % 16)
}

// Each group behind a colon.
fn push_groups(line: &mut String, groups: &[u16]) -> Result<(), AllocError>
    ensures { OnOk result (string_bytes line.new ≡ string_bytes line.old ++ groups_text groups.now) }
{
    for group in groups {
        line.push(':')?;
        push_group(line, *group)?;
    }
    Ok(())
}

// The groups in full, without the shortening of RFC 5952.
#[tactic(auto, unfolding(crate::specs::Words::v6_text))]
fn push_v6(line: &mut String, addr: u128, port: u16) -> Result<(), AllocError>
    ensures { OnOk result (string_bytes line.new ≡ string_bytes line.old ++ v6_text addr port) }
{
    let groups = groups(addr);
    let first = groups[0];
    line.push('[')?;
    push_group(line, first)?;
    push_groups(line, &groups[1..])?;
    push_labelled(line, "]:", u64::from(port))
}

// An IPv4 address as four numbers with dots.
fn push_v4(line: &mut String, octets: [u8; 4]) -> Result<(), AllocError>
    ensures { OnOk result (string_bytes line.new ≡ string_bytes line.old ++ ipv4_text octets) }
{
    let [a, b, c, d] = octets;
    push_number(line, u64::from(a))?;
    push_labelled(line, ".", u64::from(b))?;
    push_labelled(line, ".", u64::from(c))?;
    push_labelled(line, ".", u64::from(d))
}

#[tactic(auto, unfolding(crate::specs::Words::endpoint_text, std::specs::Net::Addr::IsIpv4OfBits))]
pub(crate) fn push_endpoint(line: &mut String, endpoint: &Endpoint) -> Result<(), AllocError>
    ensures { OnOk result (string_bytes line.new ≡ string_bytes line.old ++ endpoint_text endpoint.now) }
{
    match *endpoint {
        Endpoint::V4 { addr, port } => {
            push_v4(line, Ipv4Addr::from_bits(addr).octets())?;
            push_labelled(line, ":", u64::from(port))
        }
        Endpoint::V6 { addr, port } => push_v6(line, addr, port),
    }
}

// Two lower-case hexadecimal digits a byte, or a dash for none.
fn push_bytes(alloc: Global, line: &mut String, bytes: &[u8]) -> Result<(), AllocError>
    ensures { OnOk result (string_bytes line.new ≡ string_bytes line.old ++ bytes_text bytes.now) }
{
    if bytes.is_empty() {
        return line.push_str("-");
    }
    let digits = hex::encode(alloc, bytes)?;
    line.push_str(digits.as_str())
}

fn push_piece(alloc: Global, line: &mut String, at: u64, bytes: &[u8]) -> Result<(), AllocError>
    ensures { OnOk result (string_bytes line.new ≡ string_bytes line.old ++ piece_text (at, bytes.now)) }
{
    push_labelled(line, " ", at)?;
    line.push(':')?;
    push_bytes(alloc, line, bytes)
}

fn push_pieces(alloc: Global, line: &mut String, pieces: &[(u64, Bytes)]) -> Result<(), AllocError>
    ensures { OnOk result (string_bytes line.new ≡ string_bytes line.old ++ flat_map piece_text pieces.now) }
{
    for (at, bytes) in pieces {
        push_piece(alloc, line, *at, bytes.as_slice())?;
    }
    Ok(())
}

// What a callback saw of the stream: nothing where it had no peek.
pub(crate) fn push_seen(alloc: Global, line: &mut String, seen: &Seen) -> Result<(), AllocError>
    ensures { OnOk result (string_bytes line.new ≡ string_bytes line.old ++ seen_text seen.now) }
{
    match seen {
        Seen::Nothing => Ok(()),
        Seen::Next { at, missed, bytes } => {
            push_labelled(line, " peek ", *at)?;
            push_labelled(line, " ", *missed)?;
            line.push(' ')?;
            push_bytes(alloc, line, bytes.as_slice())
        }
        Seen::At { off, pieces } => {
            push_labelled(line, " at ", *off)?;
            push_pieces(alloc, line, pieces.as_slice())
        }
    }
}

pub(crate) fn push_reason(line: &mut String, reason: Reason) -> Result<(), AllocError>
    ensures { OnOk result (string_bytes line.new ≡ string_bytes line.old ++ reason_text reason) }
{
    match reason {
        Reason::Reg(number) => push_labelled(line, "reg ", u64::from(number)),
        Reason::Rule(number) => push_labelled(line, "rule ", u64::from(number)),
    }
}
