//! The nets and ports of rules.

ghost use Rattle.std.specs.Prelude.{◌≡◌, ◌≤◌, ◌<◌, IfSome, IfOk, IfErr, length};
ghost use Rattle.control_script.specs.Nets.{address_of, net_of, one_port, ports_of, span_of};
ghost use Rattle.control_script.specs.Reader.{FindsPorts, ReadsNet, RefusesNet, ReadsPorts, RefusesPorts};

use crate::cuts::cut_at;
use crate::error::ScriptError;
use crate::words::{Words, is};
use number_text::{number_in, octet};

/// IPv4 addresses that begin as one does.
#[derive(Clone, Copy, Debug, PartialEq, Eq)]
pub(crate) struct Net {
    /// One of the addresses.
    pub(crate) address: u32,
    /// How many bits count, 0 to 32.
    pub(crate) len: u8,
}

/// Ports from one to another.
#[derive(Clone, Copy, Debug, PartialEq, Eq)]
pub(crate) struct Ports {
    /// The least.
    pub(crate) low: u16,
    /// The greatest.
    pub(crate) high: u16,
}

// The address that a text writes with dots.
fn address_of(text: &[u8]) -> Option<u32>
    ensures { result ≡ address_of text.now }
{
    let (first, rest) = cut_at(b'.', text)?;
    let (second, rest) = cut_at(b'.', rest)?;
    let (third, fourth) = cut_at(b'.', rest)?;
    let first = octet(first)?;
    let second = octet(second)?;
    let third = octet(third)?;
    let fourth = octet(fourth)?;
    Some(((first * 256 + second) * 256 + third) * 256 + fourth)
}

// The net that a word is.
fn net_of(word: &[u8]) -> Option<Net>
    ensures net { result ≡ net_of word.now }
    ensures len { IfSome result (λ n. n.len ≤ 32) }
    ensures some { IfSome result (λ n. 0 < length word.now) }
{
    if is(word, "any") {
        return Some(Net { address: 0, len: 0 });
    }
    let (address, len) = cut_at(b'/', word)?;
    let address = address_of(address)?;
    let len = number_in(0, 32, len)?;
    Some(Net {
        address,
        len: len as u8,
    })
}

// The ports that a word is.
fn ports_of(word: &[u8]) -> Option<Ports>
    ensures ports { FindsPorts (ports_of word.now) result }
    ensures some { IfSome result (λ p. 0 < length word.now) }
{
    if is(word, "any") {
        return Some(Ports {
            low: 0,
            high: u16::MAX,
        });
    }
    match cut_at(b'-', word) {
        None => one_port(word),
        Some((low, high)) => span_of(low, high),
    }
}

// The port that a word is.
fn one_port(word: &[u8]) -> Option<Ports>
    ensures { FindsPorts (one_port word.now) result }
{
    let port = number_in(0, 65535, word)?;
    Some(Ports {
        low: port as u16,
        high: port as u16,
    })
}

// The ports from one to another.
fn span_of(low: &[u8], high: &[u8]) -> Option<Ports>
    ensures { FindsPorts (span_of (low.now, high.now)) result }
{
    let low = number_in(0, 65535, low)?;
    let high = number_in(0, 65535, high)?;
    if low <= high {
        Some(Ports {
            low: low as u16,
            high: high as u16,
        })
    } else {
        None
    }
}

/// Reads a net.
pub(crate) fn read_net(words: &mut Words<'_>) -> Result<Net, ScriptError>
    ensures ok { IfOk result (λ n. ReadsNet words.old words.new n) }
    ensures len { IfOk result (λ n. n.len ≤ 32) }
    ensures err { IfErr result (λ e. RefusesNet words.old e) }
{
    match net_of(words.word) {
        None => Err(ScriptError::Syntax(words.line)),
        Some(net) => {
            words.advance();
            Ok(net)
        }
    }
}

/// Reads ports.
pub(crate) fn read_ports(words: &mut Words<'_>) -> Result<Ports, ScriptError>
    ensures ok { IfOk result (λ p. ReadsPorts words.old words.new p) }
    ensures rise { IfOk result (λ p. p.low ≤ p.high) }
    ensures most { IfOk result (λ p. p.high ≤ 65535) }
    ensures err { IfErr result (λ e. RefusesPorts words.old e) }
{
    match ports_of(words.word) {
        None => Err(ScriptError::Syntax(words.line)),
        Some(ports) => {
            words.advance();
            Ok(ports)
        }
    }
}
