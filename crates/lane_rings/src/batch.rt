//! Packets that go to a lane together.

ghost use Rattle.std.specs.Prelude.{◌≡◌, ◌++◌, [], ◌∷◌, length, IfOk, OnOk, OnErr};
ghost use Rattle.std.specs.List.{All};
ghost use Rattle.lane_rings.specs.Places.{IsWithin, packet_of, lent};

use crate::items::Packet;
use app_api::Verdict;
use pcap_source::Frame;
use std::alloc::{AllocError, Global};
use std::marker::Model;

/// A packet of a batch but for its bytes, and where these are.
#[derive(Clone, Copy)]
pub(crate) struct Place {
    index: u64,
    floor: u32,
    ceil: u32,
    seconds: u32,
    fraction: u32,
    original: u32,
    head: [u8; 16],
    start: usize,
    end: usize,
    /// What a lane says of the packet; it has no meaning before the packet is answered.
    pub(crate) verdict: Verdict,
}

impl Place {
    /// The place, with what a lane says of its packet.
    pub(crate) fn answered(self, verdict: Verdict) -> Place
        ensures { result ≡ record self { verdict = verdict } }
    {
        Place { verdict, ..self }
    }

    /// The packet of the place, whose bytes stand among these.
    pub(crate) fn lend<'a>(&self, bytes: &'a [u8]) -> LentPacket<'a>
        requires within { IsWithin (length bytes.now) self.now }
        ensures { lent result ≡ packet_of bytes.now self.now }
    {
        LentPacket {
            index: self.index,
            floor: self.floor,
            ceil: self.ceil,
            seconds: self.seconds,
            fraction: self.fraction,
            original: self.original,
            head: self.head,
            bytes: &bytes[self.start..self.end],
        }
    }
}

/// Packets whose bytes stand one behind the other, so that one move takes all of them to a lane. It keeps its memory when it
/// is cleared. Contracts see the list of the packets.
#[derive(Drop)]
pub struct FlatBatch {
    pub(crate) places: Vec<Place>,
    pub(crate) bytes: Vec<u8>,
    ghost within: { All (IsWithin (length bytes.items)) places.items },
}

impl Model for FlatBatch {
    ghost use Rattle.std.specs.Prelude.{List, map};
    ghost use Rattle.lane_rings.specs.declared.items.Packet.{Packet};
    ghost use Rattle.lane_rings.specs.Places.{packet_of};

    ghost Value = { List Packet };

    ghost view = { λ b. map (packet_of b.bytes.items) b.places.items };
}

/// A packet whose bytes stand elsewhere. Its fields are those of a packet and of its frame.
#[derive(Clone, Copy)]
pub struct LentPacket<'a> {
    pub index: u64,
    pub floor: u32,
    pub ceil: u32,
    pub seconds: u32,
    pub fraction: u32,
    pub original: u32,
    pub head: [u8; 16],
    pub bytes: &'a [u8],
}

impl<'a> LentPacket<'a> {
    /// A packet whose bytes stand in a frame.
    pub fn in_frame(index: u64, floor: u32, ceil: u32, frame: &'a Frame) -> LentPacket<'a>
        ensures { lent result ≡ record { index = index; floor = floor; ceil = ceil; frame = frame.now } }
    {
        LentPacket {
            index,
            floor,
            ceil,
            seconds: frame.seconds,
            fraction: frame.fraction,
            original: frame.original,
            head: frame.head,
            bytes: &frame.bytes,
        }
    }

    /// A packet of its own that is the same.
    pub fn to_packet(&self, alloc: Global) -> Result<Packet, AllocError>
        ensures { IfOk result (λ packet. packet ≡ lent self.now) }
    {
        Ok(Packet {
            index: self.index,
            floor: self.floor,
            ceil: self.ceil,
            frame: Frame {
                seconds: self.seconds,
                fraction: self.fraction,
                original: self.original,
                head: self.head,
                bytes: Vec::from_slice(alloc, self.bytes)?,
            },
        })
    }
}

impl Packet {
    /// The packet, lent.
    pub fn lend(&self) -> LentPacket<'_>
        ensures { lent result ≡ self.now }
    {
        LentPacket::in_frame(self.index, self.floor, self.ceil, &self.frame)
    }
}

impl FlatBatch {
    /// A batch of no packets. It takes no memory.
    pub fn new(alloc: Global) -> FlatBatch
        ensures { result ≡ [] }
    {
        FlatBatch {
            places: Vec::new(alloc),
            bytes: Vec::new(alloc),
        }
    }

    /// Adds a packet behind the others, with a copy of its bytes. An error is want of memory; the batch is then as it was.
    #[inline(always)]
    pub fn push(&mut self, packet: &LentPacket<'_>) -> Result<(), AllocError>
        ensures ok { OnOk result (self.new ≡ self.old ++ lent packet.now ∷ []) }
        ensures unchanged { OnErr result (self.new ≡ self.old) }
    {
        let start = self.bytes.len();
        self.bytes.extend_from_slice(packet.bytes)?;
        self.places.push(Place {
            index: packet.index,
            floor: packet.floor,
            ceil: packet.ceil,
            seconds: packet.seconds,
            fraction: packet.fraction,
            original: packet.original,
            head: packet.head,
            start,
            end: self.bytes.len(),
            verdict: Verdict::Pass,
        })?;
        Ok(())
    }

    /// How many packets it has.
    pub fn len(&self) -> usize
        ensures { result ≡ length self.now }
    {
        self.places.len()
    }

    /// How many bytes its packets have in all.
    pub fn byte_count(&self) -> usize {
        self.bytes.len()
    }

    /// Takes all packets out of it.
    pub fn clear(&mut self)
        ensures { self.new ≡ [] }
    {
        self.places.clear();
        self.bytes.clear();
    }
}
