//! The global header of a capture.

ghost use Rattle.std.specs.Prelude.{◌≡◌};
ghost use Rattle.pcap_source.specs.Capture.{header_by, is_magic, order_of};

use crate::{OpenError, Order};

// The magic number of a capture in microseconds.
const MICROSECONDS: u32 = 0xa1b2c3d4;

// The magic number of a capture in nanoseconds.
const NANOSECONDS: u32 = 0xa1b23c4d;

const MAJOR: u16 = 2;

// The link type Ethernet, in the low 16 bits.
const ETHERNET: u32 = 1;

// How many bytes the global header has.
pub(crate) const HEADER: usize = 24;

fn is_magic_number(number: u32) -> bool
    ensures { result ≡ is_magic number }
{
    number == MICROSECONDS || number == NANOSECONDS
}

// The order of bytes in which the header begins with a magic number.
fn order_by_magic(header: &[u8; HEADER]) -> Option<Order>
    ensures { result ≡ order_of header.now }
{
    [Order::Big, Order::Little]
        .into_iter()
        .find(|order| is_magic_number(order.u32_in(header)))
}

// Judges the header in this order: magic, version, link type. Its other numbers aren't looked at.
pub(crate) fn judge_header(header: &[u8; HEADER]) -> Result<Order, OpenError>
    ensures { result ≡ header_by (order_of header.now) header.now }
{
    let order = order_by_magic(header).ok_or(OpenError::BadMagic)?;
    if order.u16_in(&header[4..]) != MAJOR {
        return Err(OpenError::BadVersion);
    }
    if order.u32_in(&header[20..]) % 65536 != ETHERNET {
        return Err(OpenError::BadLink);
    }
    Ok(order)
}
