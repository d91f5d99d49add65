//! The frames of a handshake, and captures of such frames.

use pcap_source::Frame;
use std::alloc::{AllocError, Global};

// A handshake from 10.0.0.1 port 1000 to 10.0.0.2 port 80.
pub const SYN: [u8; 54] = [
    2, 0, 0, 0, 0, 2, 2, 0, 0, 0, 0, 1, 8, 0, 0x45, 0, 0, 0x28, 0, 0, 0x40, 0, 0x40, 6, 0, 0, 10,
    0, 0, 1, 10, 0, 0, 2, 3, 0xe8, 0, 0x50, 0, 0, 0, 0x64, 0, 0, 0, 0, 0x50, 2, 0xff, 0xff, 0, 0,
    0, 0,
];

pub const SYN_ACK: [u8; 54] = [
    2, 0, 0, 0, 0, 1, 2, 0, 0, 0, 0, 2, 8, 0, 0x45, 0, 0, 0x28, 0, 0, 0x40, 0, 0x40, 6, 0, 0, 10,
    0, 0, 2, 10, 0, 0, 1, 0, 0x50, 3, 0xe8, 0, 0, 1, 0x2c, 0, 0, 0, 0x65, 0x50, 0x12, 0xff, 0xff,
    0, 0, 0, 0,
];

pub const ACK: [u8; 54] = [
    2, 0, 0, 0, 0, 2, 2, 0, 0, 0, 0, 1, 8, 0, 0x45, 0, 0, 0x28, 0, 0, 0x40, 0, 0x40, 6, 0, 0, 10,
    0, 0, 1, 10, 0, 0, 2, 3, 0xe8, 0, 0x50, 0, 0, 0, 0x65, 0, 0, 1, 0x2d, 0x50, 0x10, 0xff, 0xff,
    0, 0, 0, 0,
];

// What is no TCP: the type of the SYN's Ethernet frame is that of ARP.
pub const ARP: [u8; 54] = [
    2, 0, 0, 0, 0, 2, 2, 0, 0, 0, 0, 1, 8, 6, 0x45, 0, 0, 0x28, 0, 0, 0x40, 0, 0x40, 6, 0, 0, 10,
    0, 0, 1, 10, 0, 0, 2, 3, 0xe8, 0, 0x50, 0, 0, 0, 0x64, 0, 0, 0, 0, 0x50, 2, 0xff, 0xff, 0, 0,
    0, 0,
];

// A frame of the handshake, with the client's port this much higher.
pub fn higher(like: &[u8; 54], by: u8) -> [u8; 54] {
    let mut frame = *like;
    let at = if frame[29] == 1 { 35 } else { 37 };
    frame[at] = frame[at].wrapping_add(by);
    frame
}

// A captured frame of these bytes.
pub fn captured(alloc: Global, bytes: &[u8]) -> Result<Frame, AllocError> {
    let mut frame = Frame::new(alloc);
    frame.bytes.extend_from_slice(bytes)?;
    Ok(frame)
}
