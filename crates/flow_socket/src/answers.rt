//! What the calls of a socket answer.

use reassembly::Placed;
use tcp_emulation::Change;

/// Where the positions of one direction begin.
#[derive(Clone, Copy, Debug, PartialEq, Eq)]
pub struct Origin {
    /// The sequence number before position 0 (IRS of RFC 9293, section 3.3.1).
    pub irs: u32,
    /// The number is that of a SYN, and wasn't guessed from a later packet.
    pub knows_syn: bool,
}

/// What a packet did at its sender.
#[derive(Clone, Copy, Debug, PartialEq, Eq)]
pub struct Sent {
    /// The sender's state before and after.
    pub change: Change,
    /// The least position of the packet's direction that the receiver hasn't accepted, 0 where it
    /// received nothing yet.
    pub next: u64,
}

/// What a packet did at its receiver.
#[derive(Clone, Copy, Debug, PartialEq, Eq)]
pub struct Got {
    /// The receiver's state before and after.
    pub change: Change,
    /// How the payload was judged; all zero for a packet with RST, whose payload isn't read.
    pub placed: Placed,
    /// A sum of 1 where bytes lay beyond the window or at or past the FIN, 2 where an RST isn't in
    /// the window, and 4 where a FIN was refused.
    pub fault: u8,
    /// `next` rose.
    pub rose: bool,
    /// The least position of the packet's direction that isn't accepted now.
    pub next: u64,
    /// Both ends are in CLOSED or TIME_WAIT now.
    pub over: bool,
}

/// What a peek read.
#[derive(Clone, Copy, Debug, PartialEq, Eq)]
pub struct Peeked {
    /// The position of the first byte that was read.
    pub at: u64,
    /// How many bytes were read.
    pub len: u32,
    /// How many positions between the mark and `at` are no longer kept.
    pub missed: u64,
}
