//! The order of the bytes in the numbers of a capture.

ghost use Rattle.std.specs.Prelude.{◌≡◌, ◌+◌, ◌≤◌, length, drop};
ghost use Rattle.pcap_source.specs.Order.{number_in};

use byteorder::{BigEndian, ByteOrder, LittleEndian};

/// The order of the bytes in the numbers of a capture: in all of its headers, or in one section of a pcapng file.
#[derive(Clone, Copy, Debug, PartialEq, Eq)]
pub enum Order {
    /// The highest byte first.
    Big,
    /// The lowest byte first.
    Little,
}

impl Order {
    /// The number in the first 2 bytes.
    #[tactic(auto, unfolding(crate::specs::Order::number_in))]
    pub fn u16_in(self, bytes: &[u8]) -> u16
        requires { 2 ≤ length bytes.now }
        ensures { result ≡ number_in self 2 bytes.now }
    {
        match self {
            Order::Big => BigEndian::read_u16(bytes),
            Order::Little => LittleEndian::read_u16(bytes),
        }
    }

    /// The number in the first 4 bytes.
    #[tactic(auto, unfolding(crate::specs::Order::number_in))]
    pub fn u32_in(self, bytes: &[u8]) -> u32
        requires { 4 ≤ length bytes.now }
        ensures { result ≡ number_in self 4 bytes.now }
    {
        match self {
            Order::Big => BigEndian::read_u32(bytes),
            Order::Little => LittleEndian::read_u32(bytes),
        }
    }

    /// The number in the 2 bytes from this place on.
    pub fn u16_at(self, bytes: &[u8], place: usize) -> u16
        requires { place + 2 ≤ length bytes.now }
        ensures { result ≡ number_in self 2 (drop place bytes.now) }
    {
        self.u16_in(&bytes[place..])
    }

    /// The number in the 4 bytes from this place on.
    pub fn u32_at(self, bytes: &[u8], place: usize) -> u32
        requires { place + 4 ≤ length bytes.now }
        ensures { result ≡ number_in self 4 (drop place bytes.now) }
    {
        self.u32_in(&bytes[place..])
    }
}
