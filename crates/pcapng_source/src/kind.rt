//! The kinds of blocks.

ghost use Rattle.std.specs.Prelude.{◌≡◌, ◌≤◌, length};
ghost use Rattle.pcapng_source.specs.Fields.{head_length, is_section, is_total, kind_by, block_kind, least_total};

use pcap_source::Order;

/// The kinds that are told apart.
#[derive(Clone, Copy, Debug, PartialEq, Eq)]
pub enum Kind {
    SectionHeader,
    InterfaceBlock,
    SimplePacket,
    EnhancedPacket,
    OtherBlock,
}

// The type of a section header. It reads alike in either order.
const SECTION_HEADER: u32 = 0x0a0d_0d0a;

// How many bytes a block has at most.
const TOTAL_LIMIT: u32 = 16_777_216;

// Whether a section header begins here.
pub(crate) fn begins_section(bytes: &[u8]) -> bool
    requires { 4 ≤ length bytes.now }
    ensures { result ≡ is_section bytes.now }
{
    Order::Big.u32_in(bytes) == SECTION_HEADER
}

fn kind_by_type(number: u32) -> Kind
    ensures { result ≡ kind_by number }
{
    match number {
        1 => Kind::InterfaceBlock,
        3 => Kind::SimplePacket,
        6 => Kind::EnhancedPacket,
        _ => Kind::OtherBlock,
    }
}

impl Kind {
    // The kind of the block that begins here.
    pub(crate) fn of(order: Order, bytes: &[u8]) -> Kind
        requires { 4 ≤ length bytes.now }
        ensures { result ≡ block_kind order bytes.now }
    {
        if begins_section(bytes) {
            Kind::SectionHeader
        } else {
            kind_by_type(order.u32_in(bytes))
        }
    }

    // How many bytes are read before the rest of the block is given or skipped.
    pub(crate) fn head_length(self) -> usize
        ensures length { result ≡ head_length self }
        ensures least { 8 ≤ result }
        ensures most { result ≤ 28 }
    {
        match self {
            Kind::SectionHeader => 14,
            Kind::InterfaceBlock => 16,
            Kind::SimplePacket => 12,
            Kind::EnhancedPacket => 28,
            Kind::OtherBlock => 8,
        }
    }

    fn least_total(self) -> u32
        ensures { result ≡ least_total self }
    {
        match self {
            Kind::SectionHeader => 28,
            Kind::InterfaceBlock => 20,
            Kind::SimplePacket => 16,
            Kind::EnhancedPacket => 32,
            Kind::OtherBlock => 12,
        }
    }

    // Whether a block of this kind may have so many bytes.
    pub(crate) fn may_have(self, total: u32) -> bool
        ensures { result ≡ is_total self total }
    {
        total % 4 == 0 && self.least_total() <= total && total <= TOTAL_LIMIT
    }
}
