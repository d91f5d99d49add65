//! Vectors: a handshake's frames, and frames that the class tests turn away.

use packet_views::{Class, Head, View, view_of, window_scale};

// A SYN without payload, and 10 bytes that may be padding.
const SYN: [u8; 64] = [
    0x02, 0x00, 0x00, 0x00, 0x00, 0x02, 0x02, 0x00, 0x00, 0x00, 0x00, 0x01, 0x08, 0x00, //
    0x45, 0x00, 0x00, 0x28, 0x00, 0x00, 0x40, 0x00, 0x40, 0x06, 0x00, 0x00, //
    0x0a, 0x00, 0x00, 0x01, 0x0a, 0x00, 0x00, 0x02, //
    0x03, 0xe8, 0x00, 0x50, 0x00, 0x00, 0x00, 0x64, 0x00, 0x00, 0x00, 0x00, //
    0x50, 0x02, 0xff, 0xff, 0x00, 0x00, 0x00, 0x00, //
    0, 0, 0, 0, 0, 0, 0, 0, 0, 0,
];

// A SYN+ACK in a frame with one tag.
const TAGGED: [u8; 58] = [
    0x02, 0x00, 0x00, 0x00, 0x00, 0x01, 0x02, 0x00, 0x00, 0x00, 0x00, 0x02, //
    0x81, 0x00, 0x00, 0x05, 0x08, 0x00, //
    0x45, 0x00, 0x00, 0x28, 0x00, 0x00, 0x40, 0x00, 0x40, 0x06, 0x00, 0x00, //
    0x0a, 0x00, 0x00, 0x02, 0x0a, 0x00, 0x00, 0x01, //
    0x00, 0x50, 0x03, 0xe8, 0x00, 0x00, 0x01, 0x2c, 0x00, 0x00, 0x00, 0x65, //
    0x50, 0x12, 0xff, 0xff, 0x00, 0x00, 0x00, 0x00,
];

const TAGGED_HEAD: Head = Head {
    src: 0x0a000002,
    dst: 0x0a000001,
    sport: 80,
    dport: 1000,
    seq: 300,
    ack: 101,
    flags: 0x12,
    win: 0xffff,
    len: 0,
    ttl: 64,
};

// Bytes of the SYN by their places, and what they are changed to.
type Edits = &'static [(usize, u8)];

// How many bytes of the changed SYN there are, and its class.
const CLASSES: &[(&str, usize, Edits, Class)] = &[
    ("whole", 54, &[], Class::Tcp),
    ("padded", 60, &[], Class::Tcp),
    ("reserved flag", 54, &[(20, 0x80)], Class::Tcp),
    ("a byte of payload", 55, &[(17, 41)], Class::Tcp),
    ("empty", 0, &[], Class::Other),
    ("13 bytes", 13, &[], Class::Other),
    ("ARP", 54, &[(13, 6)], Class::Other),
    ("half a tag", 17, &[(12, 0x81)], Class::Other),
    ("tagged, no IPv4", 18, &[(12, 0x81)], Class::Other),
    ("UDP", 34, &[(23, 17)], Class::Other),
    ("fragment of UDP", 54, &[(23, 17), (20, 0x20)], Class::Other),
    ("Ethernet header alone", 14, &[], Class::Cut),
    ("19 bytes of IPv4", 33, &[], Class::Cut),
    ("IPv4 header alone", 34, &[], Class::Cut),
    ("19 bytes of TCP", 53, &[], Class::Cut),
    ("tag alone", 18, &[(12, 0x81), (16, 8), (17, 0)], Class::Cut),
    (
        "tag and 19 bytes of IPv4",
        37,
        &[(12, 0x81), (16, 8), (17, 0)],
        Class::Cut,
    ),
    ("no byte of the payload", 54, &[(17, 41)], Class::Cut),
    ("version 6", 34, &[(14, 0x65)], Class::Bad),
    ("4 words of IPv4", 54, &[(14, 0x44)], Class::Bad),
    ("total of 19", 54, &[(17, 19)], Class::Bad),
    ("total of 39", 54, &[(17, 39)], Class::Bad),
    ("6 words of IPv4", 54, &[(14, 0x46)], Class::Bad),
    ("4 words of TCP", 54, &[(46, 0x40)], Class::Bad),
    ("6 words of TCP", 54, &[(46, 0x60)], Class::Bad),
    ("more fragments", 54, &[(20, 0x20)], Class::Fragment),
    ("first fragment, cut", 34, &[(20, 0x20)], Class::Fragment),
    ("offset of 8", 54, &[(20, 0), (21, 1)], Class::Fragment),
];

// Byte 13 of the TCP header, and whether it has FIN, SYN, RST and ACK.
const FLAGS: &[(&str, u8, (bool, bool, bool, bool))] = &[
    ("FIN", 0x01, (true, false, false, false)),
    ("SYN", 0x02, (false, true, false, false)),
    ("RST", 0x04, (false, false, true, false)),
    ("ACK", 0x10, (false, false, false, true)),
    ("SYN and ACK", 0x12, (false, true, false, true)),
    ("the others", 0xe8, (false, false, false, false)),
];

// Four bytes of options, and the window scale in them.
const SCALES: &[(&str, [u8; 4], Option<u8>)] = &[
    ("above 14", [0x01, 0x03, 0x03, 0x0f], Some(14)),
    ("length 2", [0x03, 0x02, 0x01, 0x00], None),
    ("behind a length of 0", [0x02, 0x00, 0x03, 0x03], None),
    ("7", [0x03, 0x03, 0x07, 0x00], Some(7)),
    ("behind the end", [0x00, 0x03, 0x03, 0x07], None),
    ("doesn't fit", [0x01, 0x01, 0x03, 0x03], None),
    (
        "behind one that doesn't fit",
        [0x08, 0x05, 0x03, 0x03],
        None,
    ),
];

// The SYN with some bytes changed.
fn changed(edits: &[(usize, u8)]) -> [u8; 64] {
    let mut frame = SYN;
    for &(at, byte) in edits {
        if at < 64 {
            frame[at] = byte;
        }
    }
    frame
}

fn class_of(frame: &[u8]) -> Class {
    match view_of(frame) {
        View::Tcp(_) => Class::Tcp,
        View::Other(class) => class,
    }
}

// The class of the first bytes of a changed SYN.
fn class_at(len: usize, edits: &[(usize, u8)]) -> Class {
    let frame = changed(edits);
    class_of(&frame[..len.min(64)])
}

fn head_of(frame: &[u8]) -> Option<Head> {
    match view_of(frame) {
        View::Tcp(segment) => Some(segment.head()),
        View::Other(_) => None,
    }
}

// The payload of a segment, which outlives the view.
fn payload_of(frame: &[u8]) -> Option<&[u8]> {
    match view_of(frame) {
        View::Tcp(segment) => Some(segment.payload()),
        View::Other(_) => None,
    }
}

#[test]
fn first_test_that_holds_decides(rt: HostRuntime) {
    for &(name, len, edits, wanted) in CLASSES {
        assert!(rt; class_at(len, edits) == wanted, "{name}");
    }
}

#[test]
fn head_of_a_tagged_frame(rt: HostRuntime) {
    assert!(rt; head_of(&TAGGED) == Some(TAGGED_HEAD) && class_of(&TAGGED) == Class::Tcp);
}

#[test]
fn padding_is_no_payload(rt: HostRuntime) {
    let frame = changed(&[(17, 42), (54, 7), (55, 9), (56, 1)]);
    assert!(rt; payload_of(&frame).is_some_and(|payload| payload == [7, 9].as_slice()));
    assert!(rt; head_of(&frame).is_some_and(|head| head.len == 2));
}

// Whether a segment with this byte of flags has exactly the wanted ones of FIN, SYN, RST and ACK.
fn has_flags(flags: u8, wanted: (bool, bool, bool, bool)) -> bool {
    match head_of(&changed(&[(47, flags)])) {
        Some(head) => {
            wanted
                == (
                    head.has_fin(),
                    head.has_syn(),
                    head.has_rst(),
                    head.has_ack(),
                )
        }
        None => false,
    }
}

#[test]
fn flags_by_their_bits(rt: HostRuntime) {
    for &(name, flags, wanted) in FLAGS {
        assert!(rt; has_flags(flags, wanted), "{name}");
    }
}

fn is_shared<T: Send + Sync>(_: &T) -> bool {
    true
}

#[test]
fn threads_share_classes_and_heads(rt: HostRuntime) {
    assert!(rt; is_shared(&Class::Tcp) && is_shared(&TAGGED_HEAD));
}

// Whether a SYN with 4 bytes of options has this window scale.
fn has_scale(options: [u8; 4], wanted: Option<u8>) -> bool {
    let [a, b, c, d] = options;
    let frame = changed(&[(17, 44), (46, 0x60), (54, a), (55, b), (56, c), (57, d)]);
    match view_of(&frame) {
        View::Tcp(segment) => window_scale(&segment) == wanted,
        View::Other(_) => false,
    }
}

#[test]
fn walk_over_the_options(rt: HostRuntime) {
    for &(name, options, wanted) in SCALES {
        assert!(rt; has_scale(options, wanted), "{name}");
    }
}
