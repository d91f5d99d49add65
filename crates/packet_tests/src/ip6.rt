//! Vectors: frames over IPv6 with and without extension headers, and those that the class tests turn away.

use flow_table::{Endpoint, Key};
use ip6_views::{Sight, SightTcp, key_between, sight_of};
use packet_views::{Class, Head};

// A SYN without payload from 2001:db8::1, port 1000, to 2001:db8::2, port 80.
const SYN: [u8; 74] = [
    0x02, 0x00, 0x00, 0x00, 0x00, 0x02, 0x02, 0x00, 0x00, 0x00, 0x00, 0x01, 0x86, 0xdd, //
    0x60, 0x00, 0x00, 0x00, 0x00, 0x14, 0x06, 0x40, //
    0x20, 0x01, 0x0d, 0xb8, 0, 0, 0, 0, 0, 0, 0, 0, 0, 0, 0, 0x01, //
    0x20, 0x01, 0x0d, 0xb8, 0, 0, 0, 0, 0, 0, 0, 0, 0, 0, 0, 0x02, //
    0x03, 0xe8, 0x00, 0x50, 0x00, 0x00, 0x00, 0x64, 0x00, 0x00, 0x00, 0x00, //
    0x50, 0x02, 0xff, 0xff, 0x00, 0x00, 0x00, 0x00,
];

// The same with one header of 8 bytes, Hop-by-Hop Options, before the TCP header.
const EXTENDED: [u8; 82] = [
    0x02, 0x00, 0x00, 0x00, 0x00, 0x02, 0x02, 0x00, 0x00, 0x00, 0x00, 0x01, 0x86, 0xdd, //
    0x60, 0x00, 0x00, 0x00, 0x00, 0x1c, 0x00, 0x40, //
    0x20, 0x01, 0x0d, 0xb8, 0, 0, 0, 0, 0, 0, 0, 0, 0, 0, 0, 0x01, //
    0x20, 0x01, 0x0d, 0xb8, 0, 0, 0, 0, 0, 0, 0, 0, 0, 0, 0, 0x02, //
    0x06, 0x00, 0x01, 0x04, 0x00, 0x00, 0x00, 0x00, //
    0x03, 0xe8, 0x00, 0x50, 0x00, 0x00, 0x00, 0x64, 0x00, 0x00, 0x00, 0x00, //
    0x50, 0x02, 0xff, 0xff, 0x00, 0x00, 0x00, 0x00,
];

// The same with nine headers of 8 bytes, Destination Options, before the TCP header.
const NINE: [u8; 146] = [
    0x02, 0x00, 0x00, 0x00, 0x00, 0x02, 0x02, 0x00, 0x00, 0x00, 0x00, 0x01, 0x86, 0xdd, //
    0x60, 0x00, 0x00, 0x00, 0x00, 0x5c, 0x3c, 0x40, //
    0x20, 0x01, 0x0d, 0xb8, 0, 0, 0, 0, 0, 0, 0, 0, 0, 0, 0, 0x01, //
    0x20, 0x01, 0x0d, 0xb8, 0, 0, 0, 0, 0, 0, 0, 0, 0, 0, 0, 0x02, //
    0x3c, 0x00, 0x01, 0x04, 0x00, 0x00, 0x00, 0x00, //
    0x3c, 0x00, 0x01, 0x04, 0x00, 0x00, 0x00, 0x00, //
    0x3c, 0x00, 0x01, 0x04, 0x00, 0x00, 0x00, 0x00, //
    0x3c, 0x00, 0x01, 0x04, 0x00, 0x00, 0x00, 0x00, //
    0x3c, 0x00, 0x01, 0x04, 0x00, 0x00, 0x00, 0x00, //
    0x3c, 0x00, 0x01, 0x04, 0x00, 0x00, 0x00, 0x00, //
    0x3c, 0x00, 0x01, 0x04, 0x00, 0x00, 0x00, 0x00, //
    0x3c, 0x00, 0x01, 0x04, 0x00, 0x00, 0x00, 0x00, //
    0x06, 0x00, 0x01, 0x04, 0x00, 0x00, 0x00, 0x00, //
    0x03, 0xe8, 0x00, 0x50, 0x00, 0x00, 0x00, 0x64, 0x00, 0x00, 0x00, 0x00, //
    0x50, 0x02, 0xff, 0xff, 0x00, 0x00, 0x00, 0x00,
];

// The answer with one tag, an Authentication header, a window scale of 7, a byte of payload and two of padding.
const TAGGED: [u8; 97] = [
    0x02, 0x00, 0x00, 0x00, 0x00, 0x01, 0x02, 0x00, 0x00, 0x00, 0x00, 0x02, //
    0x81, 0x00, 0x00, 0x05, 0x86, 0xdd, //
    0x60, 0x00, 0x00, 0x00, 0x00, 0x25, 0x33, 0x3f, //
    0x20, 0x01, 0x0d, 0xb8, 0, 0, 0, 0, 0, 0, 0, 0, 0, 0, 0, 0x02, //
    0x20, 0x01, 0x0d, 0xb8, 0, 0, 0, 0, 0, 0, 0, 0, 0, 0, 0, 0x01, //
    0x06, 0x01, 0x00, 0x00, 0x00, 0x00, 0x01, 0x00, 0x00, 0x00, 0x00, 0x01, //
    0x00, 0x50, 0x03, 0xe8, 0x00, 0x00, 0x01, 0x2c, 0x00, 0x00, 0x00, 0x65, //
    0x60, 0x12, 0xfa, 0xf0, 0x00, 0x00, 0x00, 0x00, 0x01, 0x03, 0x03, 0x07, //
    0x2a, 0xee, 0xee,
];

// A SYN over IPv4 from 10.0.0.1, port 1000, to 10.0.0.2, port 80.
const OVER_IPV4: [u8; 54] = [
    0x02, 0x00, 0x00, 0x00, 0x00, 0x02, 0x02, 0x00, 0x00, 0x00, 0x00, 0x01, 0x08, 0x00, //
    0x45, 0x00, 0x00, 0x28, 0x00, 0x00, 0x40, 0x00, 0x40, 0x06, 0x00, 0x00, //
    0x0a, 0x00, 0x00, 0x01, 0x0a, 0x00, 0x00, 0x02, //
    0x03, 0xe8, 0x00, 0x50, 0x00, 0x00, 0x00, 0x64, 0x00, 0x00, 0x00, 0x00, //
    0x50, 0x02, 0xff, 0xff, 0x00, 0x00, 0x00, 0x00,
];

const CLIENT: Endpoint = Endpoint::V6 {
    addr: 0x20010db8_00000000_00000000_00000001,
    port: 1000,
};

const SERVER: Endpoint = Endpoint::V6 {
    addr: 0x20010db8_00000000_00000000_00000002,
    port: 80,
};

const CLIENT_OVER_IPV4: Endpoint = Endpoint::V4 {
    addr: 0x0a000001,
    port: 1000,
};

const SERVER_OVER_IPV4: Endpoint = Endpoint::V4 {
    addr: 0x0a000002,
    port: 80,
};

const SYN_HEAD: Head = Head {
    src: 0,
    dst: 0,
    sport: 1000,
    dport: 80,
    seq: 100,
    ack: 0,
    flags: 0x02,
    win: 0xffff,
    len: 0,
    ttl: 64,
};

const TAGGED_HEAD: Head = Head {
    src: 0,
    dst: 0,
    sport: 80,
    dport: 1000,
    seq: 300,
    ack: 101,
    flags: 0x12,
    win: 64240,
    len: 1,
    ttl: 63,
};

const HEAD_OVER_IPV4: Head = Head {
    src: 0x0a000001,
    dst: 0x0a000002,
    ..SYN_HEAD
};

// A frame, and what is seen of it: the head, the sender, the receiver, the window scale and the payload.
type Segment = (Head, Endpoint, Endpoint, Option<u8>, &'static [u8]);

const SEGMENTS: &[(&str, &[u8], Segment)] = &[
    ("SYN", &SYN, (SYN_HEAD, CLIENT, SERVER, None, &[])),
    (
        "one header",
        &EXTENDED,
        (SYN_HEAD, CLIENT, SERVER, None, &[]),
    ),
    (
        "tagged",
        &TAGGED,
        (TAGGED_HEAD, SERVER, CLIENT, Some(7), &[0x2a]),
    ),
    (
        "over IPv4",
        &OVER_IPV4,
        (
            HEAD_OVER_IPV4,
            CLIENT_OVER_IPV4,
            SERVER_OVER_IPV4,
            None,
            &[],
        ),
    ),
];

// How many bytes of a changed frame there are, the bytes that are changed, by their places, and the class.
type Row = (&'static str, usize, &'static [(usize, u8)], Class);

// Of the SYN.
const PLAIN: &[Row] = &[
    ("whole", 74, &[], Class::Tcp),
    (
        "traffic class and flow label",
        74,
        &[(14, 0x6f), (15, 0xff), (17, 9)],
        Class::Tcp,
    ),
    ("13 bytes", 13, &[], Class::Other),
    ("half a tag", 17, &[(12, 0x81), (13, 0)], Class::Other),
    ("ARP", 74, &[(12, 8), (13, 6)], Class::Other),
    ("UDP", 74, &[(20, 17)], Class::Other),
    ("ICMPv6", 74, &[(20, 58)], Class::Other),
    ("no next header", 54, &[(19, 0), (20, 59)], Class::Other),
    ("Ethernet header alone", 14, &[], Class::Cut),
    ("39 bytes of IPv6", 53, &[], Class::Cut),
    ("39 bytes of another version", 53, &[(14, 0x40)], Class::Cut),
    ("fixed header alone", 54, &[], Class::Cut),
    ("19 bytes of TCP", 73, &[], Class::Cut),
    ("UDP, cut", 73, &[(20, 17)], Class::Cut),
    ("version 4", 74, &[(14, 0x45)], Class::Bad),
    ("version 4, cut", 54, &[(14, 0x45)], Class::Bad),
    (
        "IPv6 under the type of IPv4",
        74,
        &[(12, 8), (13, 0)],
        Class::Bad,
    ),
    ("payload length 0", 74, &[(19, 0)], Class::Bad),
    ("payload length 19", 74, &[(19, 19)], Class::Bad),
    ("4 words of TCP", 74, &[(66, 0x40)], Class::Bad),
    ("6 words of TCP", 74, &[(66, 0x60)], Class::Bad),
];

// Of the SYN with one extension header, whose own bytes are those from place 54.
const ONE: &[Row] = &[
    ("Hop-by-Hop Options", 82, &[], Class::Tcp),
    ("Routing", 82, &[(20, 43)], Class::Tcp),
    ("Destination Options", 82, &[(20, 60)], Class::Tcp),
    ("Authentication", 82, &[(20, 51)], Class::Tcp),
    (
        "fragment of offset 0",
        82,
        &[(20, 44), (56, 0), (57, 0)],
        Class::Tcp,
    ),
    (
        "with reserved bits",
        82,
        &[(20, 44), (55, 9), (56, 0), (57, 6)],
        Class::Tcp,
    ),
    ("fragment of offset 32", 82, &[(20, 44)], Class::Fragment),
    (
        "fragment of offset 1",
        82,
        &[(20, 44), (56, 0), (57, 8)],
        Class::Fragment,
    ),
    (
        "more fragments",
        82,
        &[(20, 44), (56, 0), (57, 1)],
        Class::Fragment,
    ),
    (
        "first fragment of UDP",
        82,
        &[(20, 44), (54, 17), (56, 0), (57, 1)],
        Class::Fragment,
    ),
    ("UDP behind it", 82, &[(54, 17)], Class::Other),
    (
        "Encapsulating Security Payload",
        82,
        &[(20, 50)],
        Class::Other,
    ),
    ("Mobility", 82, &[(20, 135)], Class::Other),
    ("cut", 81, &[], Class::Cut),
    ("cut fragment", 81, &[(20, 44)], Class::Cut),
    ("payload length 0", 82, &[(19, 0)], Class::Bad),
    ("7 bytes", 82, &[(19, 7)], Class::Bad),
    ("8 bytes, then TCP", 82, &[(19, 8)], Class::Bad),
    ("8 bytes, then UDP", 82, &[(19, 8), (54, 17)], Class::Other),
    ("32 of 28 bytes", 82, &[(55, 3)], Class::Bad),
    ("24 bytes, then UDP", 82, &[(54, 17), (55, 2)], Class::Other),
    (
        "32 of 28 bytes, Authentication",
        82,
        &[(20, 51), (55, 6)],
        Class::Bad,
    ),
    (
        "28 bytes, then UDP, Authentication",
        82,
        &[(20, 51), (54, 17), (55, 5)],
        Class::Other,
    ),
];

// Of the SYN with nine extension headers.
const MANY: &[Row] = &[
    ("nine", 146, &[], Class::Bad),
    ("eight", 146, &[(55, 1)], Class::Tcp),
    ("eight, then UDP", 146, &[(110, 17)], Class::Other),
    ("ninth in the padding", 146, &[(19, 64)], Class::Bad),
];

// Whether the sight is this segment.
fn is_seen(seen: &SightTcp<'_>, wanted: &Segment) -> bool {
    let (head, from, to, scale, payload) = wanted;
    seen.head == *head
        && seen.from == *from
        && seen.to == *to
        && seen.scale == *scale
        && seen.payload == *payload
}

fn shows(frame: &[u8], wanted: &Segment) -> bool {
    match sight_of(frame) {
        Sight::Tcp(seen) => is_seen(&seen, wanted),
        Sight::Other(_) => false,
    }
}

// A frame with some bytes changed, and zeros behind it.
fn changed(frame: &[u8], edits: &[(usize, u8)]) -> [u8; 146] {
    let mut bytes = [0; 146];
    for at in 0..frame.len() {
        if at < 146 {
            bytes[at] = frame[at];
        }
    }
    for &(at, byte) in edits {
        if at < 146 {
            bytes[at] = byte;
        }
    }
    bytes
}

// The class of the first bytes of a changed frame.
fn class_of(frame: &[u8], len: usize, edits: &[(usize, u8)]) -> Class {
    let bytes = changed(frame, edits);
    match sight_of(&bytes[..len.min(146)]) {
        Sight::Tcp(_) => Class::Tcp,
        Sight::Other(class) => class,
    }
}

#[test]
fn fields_of_a_segment(rt: HostRuntime) {
    for (name, frame, wanted) in SEGMENTS {
        assert!(rt; shows(frame, wanted), "{name}");
    }
}

// A frame, and changes of it.
const CLASSES: &[(&str, &[u8], &[Row])] = &[
    ("no header", &SYN, PLAIN),
    ("one header", &EXTENDED, ONE),
    ("many headers", &NINE, MANY),
];

#[test]
fn first_test_that_holds_decides(rt: HostRuntime) {
    for &(headers, frame, rows) in CLASSES {
        for &(name, len, edits, wanted) in rows {
            assert!(rt; class_of(frame, len, edits) == wanted, "{headers}, {name}");
        }
    }
}

#[test]
fn key_of_two_endpoints(rt: HostRuntime) {
    let key = Key {
        lo: CLIENT,
        hi: SERVER,
    };
    assert!(rt; key_between(SERVER, CLIENT) == key);
}
