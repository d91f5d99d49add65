//! Judging the head of a block, as far as it is there.

ghost use Rattle.std.specs.Prelude.{◌≡◌, ◌+◌, ◌≤◌, length};
ghost use Rattle.pcapng_source.specs.Fields.{SectionState, block_kind, order_told};
ghost use Rattle.pcapng_source.specs.Refusals.{block_by, section_fault, kind_refusal, length_by, refusal_of};
ghost use Rattle.pcapng_source.specs.declared.kind.Kind.TheVariants.{SimplePacket, EnhancedPacket};

use crate::NgFault;
use crate::kind::{Kind, begins_section};
use crate::section::{Interface, Section};
use pcap_source::{CAPTURED_LIMIT, Order};

// The magic number by which a section header tells its order of bytes.
const BYTE_ORDER_MAGIC: u32 = 0x1a2b_3c4d;

const MAJOR: u16 = 1;

const ETHERNET: u16 = 1;

// How many bytes of a block are there before anything of it is judged: its type and its total length.
const FIRST_FIELDS: usize = 8;

// The order of bytes that a section header tells.
pub(crate) fn told_order(head: &[u8]) -> Option<Order>
    requires { 12 ≤ length head.now }
    ensures { result ≡ order_told head.now }
{
    [Order::Big, Order::Little]
        .into_iter()
        .find(|order| order.u32_at(head, 8) == BYTE_ORDER_MAGIC)
}

fn judge_header(offset: u64, head: &[u8]) -> Option<NgFault>
    requires { 12 ≤ length head.now }
    ensures { result ≡ section_fault (order_told head.now) offset head.now }
{
    let Some(order) = told_order(head) else {
        return Some(NgFault::BadBlock(offset));
    };
    if !Kind::SectionHeader.may_have(order.u32_at(head, 4)) {
        return Some(NgFault::BadBlock(offset));
    }
    if head.len() >= 14 && order.u16_at(head, 12) != MAJOR {
        return Some(NgFault::BadVersion(offset));
    }
    None
}

// Judges a captured length behind a head of so many bytes.
fn judge_length(head: u32, total: u32, captured: u32, offset: u64) -> Option<NgFault>
    requires { head ≤ 28 }
    ensures { result ≡ length_by head total captured offset }
{
    if captured > CAPTURED_LIMIT {
        return Some(NgFault::TooLong(offset));
    }
    if total < head + captured + 4 {
        return Some(NgFault::BadBlock(offset));
    }
    None
}

fn judge_simple(section: &Section, offset: u64, head: &[u8]) -> Option<NgFault>
    requires { 8 ≤ length head.now }
    ensures { result ≡ kind_refusal SimplePacket section.now offset head.now }
{
    let order = section.order();
    let Some(interface) = section.interface(0) else {
        return Some(NgFault::BadBlock(offset));
    };
    if interface.link != ETHERNET {
        return Some(NgFault::BadLink(offset));
    }
    if head.len() < 12 {
        return None;
    }
    let captured = interface.captured(order.u32_at(head, 8));
    judge_length(12, order.u32_at(head, 4), captured, offset)
}

#[inline(always)]
fn judge_enhanced(section: &Section, offset: u64, head: &[u8]) -> Option<NgFault>
    requires { 8 ≤ length head.now }
    ensures { result ≡ kind_refusal EnhancedPacket section.now offset head.now }
{
    let order = section.order();
    if head.len() < 12 {
        return None;
    }
    let Some(interface) = section.interface(order.u32_at(head, 8)) else {
        return Some(NgFault::BadBlock(offset));
    };
    if interface.link != ETHERNET {
        return Some(NgFault::BadLink(offset));
    }
    if head.len() < 24 {
        return None;
    }
    judge_length(28, order.u32_at(head, 4), order.u32_at(head, 20), offset)
}

#[inline(always)]
fn judge_kind(kind: Kind, section: &Section, offset: u64, head: &[u8]) -> Option<NgFault>
    requires { 8 ≤ length head.now }
    ensures { result ≡ kind_refusal kind section.now offset head.now }
{
    match kind {
        Kind::InterfaceBlock if section.is_full() => Some(NgFault::TooManyInterfaces(offset)),
        Kind::SimplePacket => judge_simple(section, offset, head),
        Kind::EnhancedPacket => judge_enhanced(section, offset, head),
        Kind::InterfaceBlock | Kind::SectionHeader | Kind::OtherBlock => None,
    }
}

// Judges a block of this kind, which is no section header.
#[inline(always)]
pub(crate) fn judge_as(kind: Kind, section: &Section, offset: u64, head: &[u8]) -> Option<NgFault>
    requires { 8 ≤ length head.now }
    ensures { result ≡ block_by kind section.now offset head.now }
{
    if !kind.may_have(section.order().u32_at(head, 4)) {
        return Some(NgFault::BadBlock(offset));
    }
    judge_kind(kind, section, offset, head)
}

// The refusal of a block at this offset behind blocks of this section, by as much of its head as is there.
pub(crate) fn judge(section: &Section, offset: u64, head: &[u8]) -> Option<NgFault>
    ensures { result ≡ refusal_of section.now offset head.now }
{
    if head.len() < FIRST_FIELDS {
        return None;
    }
    if !begins_section(head) {
        return judge_as(Kind::of(section.order(), head), section, offset, head);
    }
    if head.len() < 12 {
        return None;
    }
    judge_header(offset, head)
}
