//! Captures for tests, from the packets of a table.

use End::{Client, Server};
use std::alloc::{AllocError, Global};
use std::process::Abort;

// Which end sends a packet: 10.0.0.1, or 10.0.0.2 from port 80.
#[derive(Clone, Copy, PartialEq)]
pub enum End {
    Client,
    Server,
}

// A packet: its end, the client's port, flags, sequence number, acknowledgement number, and bytes of payload.
type Packet = (End, u16, u8, u16, u16, usize);

// How frames and numbers of a capture are written.
#[derive(Clone, Copy, PartialEq)]
pub enum Form {
    // The most significant byte first.
    Big,
    // The least significant byte first.
    Little,
    // As `Big`, with at least six bytes behind the heads, which fill up an Ethernet frame.
    Padded,
}

// A capture's packets, and the bytes behind them.
#[derive(Clone, Copy)]
pub struct Traffic {
    form: Form,
    packets: &'static [Packet],
    tail: &'static [u8],
}

pub const HANDSHAKE: Traffic = Traffic {
    form: Form::Big,
    packets: &[
        (Client, 1000, 0x02, 100, 0, 0),
        (Server, 1000, 0x12, 300, 101, 0),
        (Client, 1000, 0x10, 101, 301, 0),
    ],
    tail: &[],
};

// A handshake, and four bytes from the client.
const EXCHANGED: &[Packet] = &[
    (Client, 1000, 0x02, 100, 0, 0),
    (Server, 1000, 0x12, 300, 101, 0),
    (Client, 1000, 0x10, 101, 301, 0),
    (Client, 1000, 0x18, 101, 301, 4),
];

pub const EXCHANGE: Traffic = Traffic {
    form: Form::Big,
    packets: EXCHANGED,
    tail: &[],
};

pub const LITTLE_WITH_TAIL: Traffic = Traffic {
    form: Form::Little,
    packets: EXCHANGED,
    tail: &[1, 2, 3],
};

// Behind an exchange the head of a record that is too long.
pub const REFUSED_AT_ITS_END: Traffic = Traffic {
    form: Form::Big,
    packets: EXCHANGED,
    tail: &[0, 0, 0, 0, 0, 0, 0, 0, 0, 4, 0, 1, 0, 4, 0, 1],
};

// A client's packets with those of another one between them, which go to other lanes where there are enough.
pub const TWO_CLIENTS: Traffic = Traffic {
    form: Form::Big,
    packets: &[
        (Client, 1000, 0x02, 100, 0, 0),
        (Client, 1001, 0x02, 100, 0, 0),
        (Server, 1000, 0x12, 300, 101, 0),
        (Server, 1001, 0x12, 300, 101, 0),
        (Client, 1000, 0x10, 101, 301, 0),
        (Client, 1000, 0x18, 101, 301, 4),
    ],
    tail: &[],
};

// A request of 18 bytes, and its answer of 2,920. The server closes first.
pub const WEB_REQUEST: Traffic = Traffic {
    form: Form::Padded,
    packets: &[
        (Client, 1000, 0x02, 100, 0, 0),
        (Server, 1000, 0x12, 300, 101, 0),
        (Client, 1000, 0x10, 101, 301, 0),
        (Client, 1000, 0x18, 101, 301, 18),
        (Server, 1000, 0x10, 301, 119, 0),
        (Server, 1000, 0x18, 301, 119, 2920),
        (Client, 1000, 0x10, 119, 3221, 0),
        (Server, 1000, 0x11, 3221, 119, 0),
        (Client, 1000, 0x11, 119, 3222, 0),
        (Server, 1000, 0x10, 3222, 120, 0),
    ],
    tail: &[],
};

pub const TWO_OPENINGS: Traffic = Traffic {
    form: Form::Big,
    packets: &[
        (Client, 1000, 0x02, 100, 0, 0),
        (Client, 1001, 0x02, 100, 0, 0),
    ],
    tail: &[],
};

// Of two lanes the key with port 1001 has the first, and that with port 1000 the second.
pub const OPENINGS_OF_TWO_LANES: Traffic = Traffic {
    form: Form::Big,
    packets: &[
        (Client, 1001, 0x02, 100, 0, 0),
        (Client, 1000, 0x02, 100, 0, 0),
        (Client, 1000, 0x02, 100, 0, 0),
    ],
    tail: &[],
};

// A key of each of four lanes, in order.
pub const OPENINGS_OF_FOUR_LANES: Traffic = Traffic {
    form: Form::Big,
    packets: &[
        (Client, 1001, 0x02, 100, 0, 0),
        (Client, 1004, 0x02, 100, 0, 0),
        (Client, 1005, 0x02, 100, 0, 0),
        (Client, 1000, 0x02, 100, 0, 0),
    ],
    tail: &[],
};

pub const BIG: [u8; 24] = [
    0xa1, 0xb2, 0xc3, 0xd4, 0, 2, 0, 4, 0, 0, 0, 0, 0, 0, 0, 0, 0, 0, 0xff, 0xff, 0, 0, 0, 1,
];

const LITTLE: [u8; 24] = [
    0xd4, 0xc3, 0xb2, 0xa1, 2, 0, 4, 0, 0, 0, 0, 0, 0, 0, 0, 0, 0xff, 0xff, 0, 0, 1, 0, 0, 0,
];

// Addresses and heads of a packet from the client, without ports, numbers and flags; and one to it.
const UP: [u8; 54] = [
    2, 0, 0, 0, 0, 2, 2, 0, 0, 0, 0, 1, 8, 0, 0x45, 0, 0, 0, 0, 0, 0x40, 0, 0x40, 6, 0, 0, 10, 0,
    0, 1, 10, 0, 0, 2, 0, 0, 0, 80, 0, 0, 0, 0, 0, 0, 0, 0, 0x50, 0, 0xff, 0xff, 0, 0, 0, 0,
];

const DOWN: [u8; 54] = [
    2, 0, 0, 0, 0, 1, 2, 0, 0, 0, 0, 2, 8, 0, 0x45, 0, 0, 0, 0, 0, 0x40, 0, 0x40, 6, 0, 0, 10, 0,
    0, 2, 10, 0, 0, 1, 0, 80, 0, 0, 0, 0, 0, 0, 0, 0, 0, 0, 0x50, 0, 0xff, 0xff, 0, 0, 0, 0,
];

fn heads_of(packet: &Packet) -> [u8; 54] {
    let (end, port, flags, seq, ack, payload) = *packet;
    let mut heads = if end == Client { UP } else { DOWN };
    let port_at = if end == Client { 34 } else { 36 };
    let [_, _, _, _, _, _, high, low] = payload.saturating_add(40).to_be_bytes();
    heads[16] = high;
    heads[17] = low;
    let [high, low] = port.to_be_bytes();
    heads[port_at] = high;
    heads[port_at + 1] = low;
    let [high, low] = seq.to_be_bytes();
    heads[40] = high;
    heads[41] = low;
    let [high, low] = ack.to_be_bytes();
    heads[44] = high;
    heads[45] = low;
    heads[47] = flags;
    heads
}

// A length as a record's head has it.
fn length(form: Form, len: usize) -> [u8; 4] {
    let [_, _, _, _, a, b, c, d] = len.to_be_bytes();
    if form == Form::Little {
        [d, c, b, a]
    } else {
        [a, b, c, d]
    }
}

// Adds a record: no time, the length twice, heads, payload, padding.
fn add(bytes: &mut Vec<u8>, form: Form, packet: &Packet) -> Result<(), AllocError> {
    let payload = packet.5;
    let least = if form == Form::Padded { 6 } else { 0 };
    let behind = payload.max(least);
    let len = length(form, behind.saturating_add(54));
    bytes.extend_from_slice(&[0; 8])?;
    bytes.extend_from_slice(&len)?;
    bytes.extend_from_slice(&len)?;
    bytes.extend_from_slice(&heads_of(packet))?;
    for at in 0..behind {
        bytes.push(if at < payload { b'x' } else { 0 })?;
    }
    Ok(())
}

fn add_all(bytes: &mut Vec<u8>, traffic: &Traffic) -> Result<(), AllocError> {
    let header = if traffic.form == Form::Little {
        LITTLE
    } else {
        BIG
    };
    bytes.extend_from_slice(&header)?;
    for packet in traffic.packets {
        add(bytes, traffic.form, packet)?;
    }
    bytes.extend_from_slice(traffic.tail)
}

// The capture of this traffic.
pub fn capture_of<R: AllocGlobal + Abort>(rt: &R, traffic: &Traffic) -> Vec<u8> {
    let alloc: Global = rt.alloc();
    let mut bytes = Vec::new(alloc);
    add_all(&mut bytes, traffic).expect(rt, "memory");
    bytes
}

// The opening of one lane, and behind it 5,000 packets of two keys that have other lanes, where there are two or four. Each has a
// number of its own.
fn add_crowd(bytes: &mut Vec<u8>) -> Result<(), AllocError> {
    bytes.extend_from_slice(&BIG)?;
    add(bytes, Form::Big, &(Client, 1000, 0x02, 100, 0, 0))?;
    for number in 0..5_000 {
        let port = if number % 2 == 0 { 1001 } else { 1005 };
        add(bytes, Form::Big, &(Client, port, 0x10, number, 301, 0))?;
    }
    Ok(())
}

pub fn crowd_of<R: AllocGlobal + Abort>(rt: &R) -> Vec<u8> {
    let mut bytes = Vec::new(rt.alloc());
    add_crowd(&mut bytes).expect(rt, "memory");
    bytes
}
