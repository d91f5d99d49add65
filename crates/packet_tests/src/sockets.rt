//! Packets of whole connections at a socket: states, faults, windows and peeks.

ghost use Rattle.std.specs.Prelude.{◌≡◌, ◌≤◌, length};
ghost use Rattle.std.specs.Option.{ForSome};

use Side::{Client, Server};
use State::{CloseWait, Closed, Established, FinWait1, LastAck, SynRcvd, SynSent, TimeWait};
use Step::{Drop, Leaves, Offer, Peek, Runs, Take};
use flow_socket::{FlowSocket, Got, Peeked};
use packet_views::Head;
use reassembly::Policy;
use std::alloc::Global;
use tcp_emulation::{Side, State};

const FIN: u8 = 1;

const SYN: u8 = 2;

const RST: u8 = 4;

const ACK: u8 = 16;

/// A packet as it is sent, by its sender, flags, sequence and acknowledgement number.
#[derive(Clone, Copy)]
struct Packet<'a>(Side, u8, u32, u32, &'a [u8]);

/// What a packet did: the states of its sender and its receiver, the faults, `next`, and whether
/// the connection is over.
type Seen = (State, State, u8, u64, bool);

#[derive(Clone, Copy)]
enum Step<'a> {
    /// A packet, whatever it does.
    Take(Packet<'a>),
    /// A packet, and what it does.
    Leaves(Packet<'a>, Seen),
    /// A packet with another window and a window scale, whatever it does.
    Offer(Packet<'a>, u16, Option<u8>),
    /// A packet that is sent, and dropped before it is received.
    Drop(Packet<'a>),
    /// A peek into a buffer of eight bytes, by its sender's side: `at`, `len` and `missed`, and then the buffer.
    Peek(Side, (u64, u32, u64), &'static [u8; 8]),
    /// The one run that is kept of the client's first eight bytes.
    Runs(u64, u32),
}

/// A handshake with the numbers 100 and 300.
const OPEN: [Packet; 3] = [
    Packet(Client, SYN, 100, 0, b""),
    Packet(Server, SYN | ACK, 300, 101, b""),
    Packet(Client, ACK, 101, 301, b""),
];

// Both directions closed in turn.
const CLIENT_FIN: Packet = Packet(Client, FIN | ACK, 101, 301, b"");

const SERVER_FIN: Packet = Packet(Server, FIN | ACK, 301, 102, b"");

const LAST_ACK: Packet = Packet(Client, ACK, 102, 302, b"");

const CLIENT_SYN: Packet = Packet(Client, SYN, 100, 0, b"");

// The last number before 0, so that 0 acknowledges it.
const LAST_NUMBER_SYN: Packet = Packet(Client, SYN, u32::MAX, 0, b"");

const FIN_BEHIND_AB: Packet = Packet(Client, FIN | ACK, 101, 301, b"AB");

// The size of the receive buffers, the packets before, and what follows them.
const CASES: &[(&str, u32, &[Packet], &[Step])] = &[
    (
        "FIN of the client",
        65536,
        &OPEN,
        &[Leaves(CLIENT_FIN, (FinWait1, CloseWait, 0, 0, false))],
    ),
    (
        "FIN of the server",
        65536,
        &OPEN,
        &[
            Take(CLIENT_FIN),
            Leaves(SERVER_FIN, (LastAck, TimeWait, 0, 0, false)),
        ],
    ),
    (
        "last acknowledgement",
        65536,
        &OPEN,
        &[
            Take(CLIENT_FIN),
            Take(SERVER_FIN),
            Leaves(LAST_ACK, (TimeWait, Closed, 0, 0, true)),
        ],
    ),
    (
        "refused by RST",
        65536,
        &[],
        &[
            Take(CLIENT_SYN),
            Leaves(
                Packet(Server, RST | ACK, 0, 101, b""),
                (Closed, Closed, 0, 0, true),
            ),
        ],
    ),
    // The window has 65,535 numbers from 101 on; an RST has neither payload nor FIN.
    (
        "RST at the window's end",
        65536,
        &OPEN,
        &[Leaves(
            Packet(Client, RST | FIN, 101 + 65534, 301, b"AB"),
            (Closed, Closed, 0, 0, true),
        )],
    ),
    (
        "RST before the window",
        65536,
        &OPEN,
        &[Leaves(
            Packet(Client, RST, 100, 301, b""),
            (Closed, Established, 2, 0, false),
        )],
    ),
    (
        "RST past the window",
        65536,
        &OPEN,
        &[Leaves(
            Packet(Client, RST, 101 + 65535, 301, b""),
            (Closed, Established, 2, 0, false),
        )],
    ),
    (
        "bytes past the window",
        4,
        &OPEN,
        &[Leaves(
            Packet(Client, ACK, 101, 301, b"ABCDEFGH"),
            (Established, Established, 1, 4, false),
        )],
    ),
    (
        "FIN behind two bytes",
        65536,
        &OPEN,
        &[Leaves(FIN_BEHIND_AB, (FinWait1, CloseWait, 0, 2, false))],
    ),
    (
        "another FIN past it",
        65536,
        &OPEN,
        &[
            Take(FIN_BEHIND_AB),
            Leaves(
                Packet(Client, FIN | ACK, 103, 301, b"C"),
                (FinWait1, CloseWait, 5, 2, false),
            ),
        ],
    ),
    (
        "a later SYN doesn't move the origin",
        65536,
        &OPEN,
        &[
            Take(Packet(Client, SYN, 5000, 0, b"")),
            Leaves(
                Packet(Client, ACK, 101, 301, b"A"),
                (Established, Established, 0, 1, false),
            ),
        ],
    ),
    (
        "0 acknowledges the last number",
        65536,
        &[LAST_NUMBER_SYN],
        &[Leaves(
            Packet(Server, SYN | ACK, 300, 0, b""),
            (SynRcvd, Established, 0, 0, false),
        )],
    ),
    (
        "1 acknowledges the last number",
        65536,
        &[LAST_NUMBER_SYN],
        &[Leaves(
            Packet(Server, SYN | ACK, 300, 1, b""),
            (SynRcvd, Established, 0, 0, false),
        )],
    ),
    (
        "the last number doesn't acknowledge itself",
        65536,
        &[LAST_NUMBER_SYN],
        &[Leaves(
            Packet(Server, SYN | ACK, 300, u32::MAX, b""),
            (SynRcvd, SynSent, 0, 0, false),
        )],
    ),
    (
        "half of all numbers on",
        65536,
        &[LAST_NUMBER_SYN],
        &[Leaves(
            Packet(Server, SYN | ACK, 300, 1 << 31, b""),
            (SynRcvd, SynSent, 0, 0, false),
        )],
    ),
    // No SYN of the server is in the capture, so nothing acknowledges it.
    (
        "no SYN of the server",
        65536,
        &[CLIENT_SYN],
        &[
            Leaves(
                Packet(Server, ACK, 301, 101, b"xy"),
                (SynRcvd, SynSent, 0, 2, false),
            ),
            Leaves(
                Packet(Client, ACK, 101, 303, b""),
                (SynSent, SynRcvd, 0, 0, false),
            ),
        ],
    ),
    // With a buffer of four bytes the first four are forgotten when the next four come.
    (
        "peeks behind what is forgotten",
        4,
        &OPEN,
        &[
            Take(Packet(Client, ACK, 101, 301, b"ABCD")),
            Take(Packet(Client, ACK, 105, 301, b"EFGH")),
            Peek(Client, (4, 4, 4), b"EFGH\0\0\0\0"),
            Peek(Client, (8, 0, 0), b"\0\0\0\0\0\0\0\0"),
        ],
    ),
    (
        "each direction has a mark",
        4,
        &OPEN,
        &[
            Take(Packet(Client, ACK, 101, 301, b"ABCD")),
            Take(Packet(Client, ACK, 105, 301, b"EFGH")),
            Peek(Client, (4, 4, 4), b"EFGH\0\0\0\0"),
            Peek(Client, (8, 0, 0), b"\0\0\0\0\0\0\0\0"),
            Take(Packet(Server, ACK, 301, 101, b"xy")),
            Peek(Server, (0, 2, 0), b"xy\0\0\0\0\0\0"),
        ],
    ),
    (
        "peeks past the last number",
        65536,
        &[
            Packet(Client, SYN, 0xffff_fffd, 0, b""),
            Packet(Server, SYN | ACK, 300, 0xffff_fffe, b""),
            Packet(Client, ACK, 0xffff_fffe, 301, b""),
        ],
        &[
            Take(Packet(Client, ACK, 0xffff_fffe, 301, b"ABCDEFGH")),
            Peek(Client, (0, 8, 0), b"ABCDEFGH"),
        ],
    ),
    (
        "peeks over a gap",
        65536,
        &OPEN,
        &[
            Leaves(
                Packet(Client, ACK, 105, 301, b"EFGH"),
                (Established, Established, 0, 0, false),
            ),
            Runs(4, 4),
            Take(Packet(Client, ACK, 101, 301, b"ABCD")),
            Runs(0, 8),
        ],
    ),
];

const SYN_ACK: Packet = Packet(Server, SYN | ACK, 300, 101, b"");

const SERVER_ACK: Packet = Packet(Server, ACK, 301, 101, b"");

const EIGHT: Packet = Packet(Client, ACK, 101, 301, b"ABCDEFGH");

const NINE: Packet = Packet(Client, ACK, 101, 301, b"ABCDEFGHI");

// What the server advertises for the bytes of the client, with a receive buffer of 65,536 bytes.
const WINDOWS: &[(&str, &[Step])] = &[
    (
        "window of four",
        &[
            Take(CLIENT_SYN),
            Offer(SYN_ACK, 4, None),
            Leaves(EIGHT, (Established, Established, 1, 4, false)),
        ],
    ),
    (
        "scaled by both",
        &[
            Offer(CLIENT_SYN, 4, Some(2)),
            Offer(SYN_ACK, 4, Some(2)),
            Offer(SERVER_ACK, 2, None),
            Leaves(NINE, (Established, Established, 1, 8, false)),
        ],
    ),
    (
        "scaled by the client alone",
        &[
            Offer(CLIENT_SYN, 4, Some(2)),
            Offer(SYN_ACK, 4, None),
            Offer(SERVER_ACK, 2, None),
            Leaves(EIGHT, (Established, Established, 1, 4, false)),
        ],
    ),
    (
        "window of a SYN",
        &[
            Offer(CLIENT_SYN, 4, Some(2)),
            Offer(SYN_ACK, 4, Some(2)),
            Leaves(EIGHT, (Established, Established, 1, 4, false)),
        ],
    ),
    (
        "scale of a later SYN",
        &[
            Offer(CLIENT_SYN, 4, Some(2)),
            Offer(SYN_ACK, 4, Some(2)),
            Offer(SYN_ACK, 4, Some(14)),
            Offer(SERVER_ACK, 2, None),
            Leaves(NINE, (Established, Established, 1, 8, false)),
        ],
    ),
    // The first SYN of the server has RST.
    (
        "scale of a SYN with RST",
        &[
            Offer(CLIENT_SYN, 4, Some(2)),
            Offer(Packet(Server, SYN | RST, 300, 101, b""), 4, Some(2)),
            Offer(SYN_ACK, 4, None),
            Offer(SERVER_ACK, 2, None),
            Leaves(NINE, (Closed, Closed, 1, 8, true)),
        ],
    ),
    (
        "window of an RST",
        &[
            Take(CLIENT_SYN),
            Offer(SYN_ACK, 4, None),
            Take(Packet(Server, RST | ACK, 299, 101, b"")),
            Leaves(EIGHT, (Established, Closed, 1, 4, false)),
        ],
    ),
    (
        "window that shrinks",
        &[
            Take(CLIENT_SYN),
            Offer(SYN_ACK, 8, None),
            Offer(SERVER_ACK, 2, None),
            Leaves(NINE, (Established, Established, 1, 8, false)),
        ],
    ),
    (
        "no SYN of the server",
        &[
            Take(CLIENT_SYN),
            Offer(SERVER_ACK, 4, None),
            Leaves(EIGHT, (SynSent, SynRcvd, 0, 8, false)),
        ],
    ),
    // Where the positions of the client begin isn't known when the server offers its window.
    (
        "dropped SYN of the client",
        &[
            Drop(CLIENT_SYN),
            Offer(SYN_ACK, 4, None),
            Leaves(EIGHT, (SynSent, Established, 0, 8, false)),
        ],
    ),
    (
        "RST at the last number of a window",
        &[
            Take(CLIENT_SYN),
            Offer(SYN_ACK, 4, None),
            Leaves(
                Packet(Client, RST, 104, 301, b""),
                (Closed, Closed, 0, 0, true),
            ),
        ],
    ),
    (
        "RST past a window",
        &[
            Take(CLIENT_SYN),
            Offer(SYN_ACK, 4, None),
            Leaves(
                Packet(Client, RST, 105, 301, b""),
                (Closed, SynRcvd, 2, 0, false),
            ),
        ],
    ),
    (
        "RST at a closed window",
        &[
            Take(CLIENT_SYN),
            Offer(SYN_ACK, 0, None),
            Leaves(
                Packet(Client, RST, 101, 301, b""),
                (Closed, Closed, 0, 0, true),
            ),
        ],
    ),
    (
        "RST past a closed window",
        &[
            Take(CLIENT_SYN),
            Offer(SYN_ACK, 0, None),
            Leaves(
                Packet(Client, RST, 102, 301, b""),
                (Closed, SynRcvd, 2, 0, false),
            ),
        ],
    ),
    (
        "FIN at the end of a window",
        &[
            Take(CLIENT_SYN),
            Offer(SYN_ACK, 4, None),
            Leaves(
                Packet(Client, FIN | ACK, 101, 301, b"ABCD"),
                (FinWait1, CloseWait, 0, 4, false),
            ),
        ],
    ),
    (
        "FIN past a window",
        &[
            Take(CLIENT_SYN),
            Offer(SYN_ACK, 4, None),
            Leaves(
                Packet(Client, FIN | ACK, 101, 301, b"ABCDE"),
                (FinWait1, Established, 5, 4, false),
            ),
        ],
    ),
    // Four bytes wait before any offer is made. They stay, and once the bytes before them have come, `next` is past it.
    (
        "late window",
        &[
            Take(CLIENT_SYN),
            Take(Packet(Client, ACK, 105, 0, b"EFGH")),
            Offer(SYN_ACK, 2, None),
            Leaves(
                Packet(Client, ACK, 105, 301, b"EFGH"),
                (Established, Established, 0, 0, false),
            ),
            Leaves(NINE, (Established, Established, 1, 2, false)),
            Offer(Packet(Server, ACK, 301, 103, b""), 2, None),
            Leaves(
                Packet(Client, ACK, 103, 301, b"CD"),
                (Established, Established, 0, 8, false),
            ),
            Leaves(NINE, (Established, Established, 1, 8, false)),
        ],
    ),
];

const HEAD: Head = Head {
    src: 1,
    dst: 2,
    sport: 1000,
    dport: 80,
    seq: 0,
    ack: 0,
    flags: 0,
    win: 65535,
    len: 0,
    ttl: 64,
};

// What a packet did at its receiver; none where a stream is too long or memory is refused.
fn receive(socket: &mut FlowSocket, from: Side, head: &Head, payload: &[u8]) -> Option<Got>
    requires len { head.now.len ≡ length payload.now }
    requires bytes { length payload.now ≤ 65535 }
{
    if socket.stream(Client).next() > 1 << 62 || socket.stream(Server).next() > 1 << 62 {
        return None;
    }
    socket.receive(from, head, payload).ok()
}

// The header of a packet without payload, with this window.
fn head_of(packet: &Packet, win: u16) -> Head {
    let Packet(_, flags, seq, ack, _) = *packet;
    Head {
        seq,
        ack,
        flags,
        win,
        ..HEAD
    }
}

// A shift of at most 14, none in place of a greater one.
fn shift_of(scale: Option<u8>) -> Option<u8>
    ensures { ForSome result (λ shift. shift ≤ 14) }
{
    match scale {
        Some(shift) if shift <= 14 => Some(shift),
        _ => None,
    }
}

// Both phases of a packet, and what they did.
fn take(socket: &mut FlowSocket, packet: &Packet, win: u16, scale: Option<u8>) -> Option<Seen> {
    let Packet(from, _, _, _, payload) = *packet;
    if payload.len() > 65535 {
        return None;
    }
    let head = Head {
        len: payload.len() as u32,
        ..head_of(packet, win)
    };
    let sent = socket.send(from, &head, shift_of(scale));
    let got = receive(socket, from, &head, payload)?;
    Some((
        sent.change.new,
        got.change.new,
        got.fault,
        got.next,
        got.over,
    ))
}

fn leaves(socket: &mut FlowSocket, packet: &Packet, seen: Seen) -> bool {
    take(socket, packet, 65535, None) == Some(seen)
        && socket.is_over() == seen.4
        && last_number(socket) == Some(packet.2)
}

fn last_number(socket: &FlowSocket) -> Option<u32> {
    match socket.last() {
        Some(head) => Some(head.seq),
        None => None,
    }
}

fn peeks(
    socket: &mut FlowSocket,
    from: Side,
    wanted: (u64, u32, u64),
    bytes: &'static [u8; 8],
) -> bool {
    let mut buf = [0; 8];
    let Peeked { at, len, missed } = socket.peek(from, &mut buf);
    (at, len, missed) == wanted && buf == *bytes
}

fn has_run(socket: &FlowSocket, at: u64, len: u32) -> bool {
    let mut pieces = socket.ppeek(Client, 0, 8);
    pieces.next() == Some((at, len)) && pieces.next() == None
}

fn follows(socket: &mut FlowSocket, step: &Step) -> bool {
    match step {
        Take(packet) => take(socket, packet, 65535, None).is_some(),
        Leaves(packet, seen) => leaves(socket, packet, *seen),
        Offer(packet, win, scale) => take(socket, packet, *win, *scale).is_some(),
        Drop(packet) => socket.send(packet.0, &head_of(packet, 65535), None).next == 0,
        Peek(from, wanted, bytes) => peeks(socket, *from, *wanted, *bytes),
        Runs(at, len) => has_run(socket, *at, *len),
    }
}

fn follows_all(socket: &mut FlowSocket, before: &[Packet], steps: &[Step]) -> bool {
    for packet in before {
        if take(socket, packet, 65535, None).is_none() {
            return false;
        }
    }
    for step in steps {
        if !follows(socket, step) {
            return false;
        }
    }
    true
}

// Whether a socket follows the steps after the packets before.
fn plays(alloc: Global, rbuf: u32, before: &[Packet], steps: &[Step]) -> bool {
    if rbuf < 1 || rbuf > 1_048_576 {
        return false;
    }
    let mut socket = FlowSocket::new(alloc, rbuf, Policy::First);
    follows_all(&mut socket, before, steps)
}

#[test]
fn each_packet_leaves_its_states(rt: HostRuntime) {
    for &(name, rbuf, before, steps) in CASES {
        assert!(rt; plays(rt.alloc(), rbuf, before, steps), "{name}");
    }
}

#[test]
fn accepts_what_was_advertised(rt: HostRuntime) {
    for &(name, steps) in WINDOWS {
        assert!(rt; plays(rt.alloc(), 65536, &[], steps), "{name}");
    }
}

#[test]
fn longest_payload(rt: HostRuntime) {
    let payload = vec![in rt.alloc(); 7; 65535].expect(&rt, "memory");
    let whole = Leaves(
        Packet(Client, ACK, 101, 301, &payload),
        (Established, Established, 0, 65535, false),
    );
    assert!(rt; plays(rt.alloc(), 65536, &OPEN, &[whole]));
}

fn handed_over<T: Send>(value: T) -> T {
    value
}

#[test]
fn moves_to_a_thread(rt: HostRuntime) {
    let socket = handed_over(FlowSocket::new(rt.alloc(), 4, Policy::First));
    assert!(rt; socket.last().is_none());
}
