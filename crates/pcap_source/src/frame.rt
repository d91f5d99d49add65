//! A captured packet.

ghost use Rattle.std.specs.Prelude.{◌≡◌, [], replicate};
ghost use Rattle.pcap_source.specs.Captured.{Captured};

use std::alloc::Global;
use std::marker::Model;

/// A record of a capture: its time, its length on the wire, its header of 16 bytes as it was read, and the bytes that
/// were captured. One frame is used again for one record after another, and keeps its memory.
#[derive(Drop)]
pub struct Frame {
    /// Seconds of the packet's time.
    pub seconds: u32,
    /// The rest of the time, in the capture's unit: microseconds or nanoseconds.
    pub fraction: u32,
    /// How many bytes the packet had on the wire.
    pub original: u32,
    /// The record's header as it was read.
    pub head: [u8; 16],
    /// The captured bytes.
    pub bytes: Vec<u8>,
}

impl Model for Frame {
    ghost Value = { Captured };

    ghost view = { λ f. record {
      seconds = f.seconds;
      fraction = f.fraction;
      original = f.original;
      head = f.head;
      bytes = f.bytes.items;
    } };
}

impl Frame {
    /// A frame of zeros and no bytes. It takes no memory.
    pub fn new(alloc: Global) -> Self
        ensures { result ≡ record { seconds = 0; fraction = 0; original = 0; head = replicate 16 0; bytes = [] } }
    {
        Frame {
            seconds: 0,
            fraction: 0,
            original: 0,
            head: [0; 16],
            bytes: Vec::new(alloc),
        }
    }
}
