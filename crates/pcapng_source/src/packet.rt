//! The records that packets give.

ghost use Rattle.std.specs.Prelude.{◌≡◌, ◌++◌, ◌≤◌, length};
ghost use Rattle.byteorder.specs.Endian.{big_bytes};
ghost use Rattle.pcapng_source.specs.Packets.{captured_of, record_by, time_of};
ghost use Rattle.pcapng_source.specs.declared.kind.Kind.TheVariants.{SimplePacket, EnhancedPacket};

use crate::section::Interface;
use crate::time::seconds_and_micros;
use byteorder::{BigEndian, ByteOrder};
use pcap_source::Order;

// How many bytes the head of a record has.
pub(crate) const RECORD_HEAD: usize = 16;

// The head of a record.
fn record_head_of(seconds: u32, micros: u32, captured: u32, original: u32) -> [u8; RECORD_HEAD]
    ensures { result ≡ big_bytes 4 seconds ++ (big_bytes 4 micros ++ (big_bytes 4 captured ++ big_bytes 4 original)) }
{
    let mut head = [0; RECORD_HEAD];
    BigEndian::write_u32(&mut head, seconds);
    BigEndian::write_u32(&mut head[4..], micros);
    BigEndian::write_u32(&mut head[8..], captured);
    BigEndian::write_u32(&mut head[12..], original);
    head
}

// When an enhanced packet was captured, in the unit of its interface.
#[inline(always)]
fn time_in(order: Order, head: &[u8]) -> u64
    requires { 20 ≤ length head.now }
    ensures { result ≡ time_of order head.now }
{
    (u64::from(order.u32_at(head, 12)) << 32) + u64::from(order.u32_at(head, 16))
}

// The head of an enhanced packet's record, by the head of its block.
#[inline(always)]
pub(crate) fn enhanced_record(order: Order, interface: &Interface, head: &[u8]) -> [u8; RECORD_HEAD]
    requires { 28 ≤ length head.now }
    ensures { result ≡ record_by EnhancedPacket order interface.now head.now }
{
    let (seconds, micros) = seconds_and_micros(interface.resolution, time_in(order, head));
    record_head_of(
        seconds,
        micros,
        order.u32_at(head, 20),
        order.u32_at(head, 24),
    )
}

// The head of a simple packet's record, by the head of its block. Its time is 0.
pub(crate) fn simple_record(order: Order, interface: &Interface, head: &[u8]) -> [u8; RECORD_HEAD]
    requires { 12 ≤ length head.now }
    ensures { result ≡ record_by SimplePacket order interface.now head.now }
{
    let original = order.u32_at(head, 8);
    record_head_of(0, 0, interface.captured(original), original)
}
