//! What is told of a packet: its class and, of a TCP segment, its header fields.

ghost use Rattle.std.specs.Prelude.{◌≡◌};

/// The flag bits in byte 13 of the TCP header (RFC 9293, section 3.1): no more data from the sender.
pub const FIN: u8 = 0x01;

/// Synchronize sequence numbers.
pub const SYN: u8 = 0x02;

/// Reset the connection.
pub const RST: u8 = 0x04;

/// The acknowledgment number counts.
pub const ACK: u8 = 0x10;

/// What a frame holds. The tests that decide are made in the order of the link, the IPv4 and the
/// TCP header.
#[derive(Clone, Copy, Debug, PartialEq, Eq)]
pub enum Class {
    /// A whole TCP segment over IPv4 (RFC 9293, section 3.1; RFC 791, section 3.1).
    Tcp,
    /// No IPv4 packet, or one of another protocol than TCP.
    Other,
    /// A fragment of an IPv4 packet that carries TCP (RFC 791, section 3.1).
    Fragment,
    /// The capture holds less than the headers say that was sent.
    Cut,
    /// Header fields that contradict each other.
    Bad,
}

/// The fields of the IPv4 and the TCP header of a segment, as numbers in host order.
#[derive(Clone, Copy, Debug, PartialEq, Eq)]
pub struct Head {
    /// Source address.
    pub src: u32,
    /// Destination address.
    pub dst: u32,
    /// Source port.
    pub sport: u16,
    /// Destination port.
    pub dport: u16,
    /// Sequence number.
    pub seq: u32,
    /// Acknowledgment number.
    pub ack: u32,
    /// Byte 13 of the TCP header, whole: FIN is 1, SYN 2, RST 4, PSH 8, ACK 16, URG 32.
    pub flags: u8,
    /// Window field, as sent, with no scale applied.
    pub win: u16,
    /// Bytes of payload, at most 65,535.
    pub len: u32,
    /// Time to live.
    pub ttl: u8,
}

impl Head {
    ghost use Rattle.packet_views.specs.Flags.{has_fin, has_syn, has_rst, has_ack};

    /// Whether the segment has FIN.
    #[tactic(auto, unfolding(crate::specs::Flags::has_fin))]
    pub fn has_fin(&self) -> bool
        ensures { result ≡ has_fin self.now }
    {
        self.flags & FIN != 0
    }

    /// Whether the segment has SYN.
    #[tactic(auto, unfolding(crate::specs::Flags::has_syn))]
    pub fn has_syn(&self) -> bool
        ensures { result ≡ has_syn self.now }
    {
        self.flags & SYN != 0
    }

    /// Whether the segment has RST.
    #[tactic(auto, unfolding(crate::specs::Flags::has_rst))]
    pub fn has_rst(&self) -> bool
        ensures { result ≡ has_rst self.now }
    {
        self.flags & RST != 0
    }

    /// Whether the segment has ACK.
    #[tactic(auto, unfolding(crate::specs::Flags::has_ack))]
    pub fn has_ack(&self) -> bool
        ensures { result ≡ has_ack self.now }
    {
        self.flags & ACK != 0
    }
}
