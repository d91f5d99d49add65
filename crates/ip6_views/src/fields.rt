//! Addresses of IPv6 read out of a frame, in network order, the highest byte first.

ghost use Rattle.std.specs.Prelude.{◌≡◌, ◌+◌, ◌≤◌, length};
ghost use Rattle.packet_views.specs.Frame.{field};

use byteorder::{BigEndian, ByteOrder};

/// The address of IPv6 in the 16 bytes from `at`.
#[inline(always)]
pub fn u128_at(frame: &[u8], at: usize) -> u128
    requires { at + 16 ≤ length frame.now }
    ensures { result ≡ field at 16 frame.now }
{
    BigEndian::read_u128(&frame[at..])
}
