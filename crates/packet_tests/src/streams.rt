//! One direction of a connection as its receiver accepts it: worked segments, and random ones beside the plain receiver.

ghost use Rattle.std.specs.Prelude.{◌≡◌, ◌<◌, ◌≤◌};

use Step::{Fin, Segment};
use reassembly::{FinNote, Placed, PlainReceiver, Policy, Stream};
use std::alloc::Global;

#[derive(Clone, Copy)]
enum Step {
    // How far above `next` a segment begins, its bytes, how these are judged (new, old, differ, over), and `next` after it.
    Segment(i64, &'static [u8], (u32, u32, u32, u32), u64),
    // The position of a FIN, the greatest one that is allowed, and what becomes of it.
    Fin(i64, u64, FinNote),
}

// A receive buffer and a window of 8 bytes: the byte that came first stays, and each line goes on from the one above.
const WORKED: &[(&str, Step)] = &[
    ("behind a hole", Segment(4, b"EFGH", (4, 0, 0, 0), 0)),
    (
        "over the first two of them",
        Segment(2, b"CDxF", (2, 2, 1, 0), 0),
    ),
    ("past the window", Segment(6, b"GHIJ", (0, 2, 0, 2), 0)),
    (
        "before the stream's start",
        Segment(-1, b"?AB", (2, 1, 0, 0), 8),
    ),
    ("all of it again", Segment(-8, b"ABCDEFGZ", (0, 8, 1, 0), 8)),
    ("next in order", Segment(0, b"IJ", (2, 0, 0, 0), 10)),
    ("no longer kept", Segment(-10, b"ZZZ", (0, 3, 1, 0), 10)),
    ("FIN below next", Fin(9, 18, FinNote::Refused)),
    ("FIN past the edge", Fin(19, 18, FinNote::Refused)),
    ("FIN", Fin(12, 18, FinNote::Noted)),
    ("FIN again", Fin(12, 18, FinNote::Same)),
    ("past the FIN", Segment(0, b"KLMN", (2, 0, 0, 2), 12)),
];

fn is_judged(stream: &mut Stream, d: i64, bytes: &[u8], wanted: Placed, next: u64) -> bool
    requires { 8 ≤ stream.old.rbuf }
    ensures { stream.new.rbuf ≡ stream.old.rbuf }
{
    if d < -100 || d > 100 || bytes.len() > 100 || stream.next() > 1000 {
        return false;
    }
    match stream.place(d, bytes, Policy::First, 8) {
        Ok(placed) => placed == wanted && stream.next() == next,
        Err(_) => false,
    }
}

fn follows(stream: &mut Stream, step: Step) -> bool
    requires { 8 ≤ stream.old.rbuf }
    ensures { stream.new.rbuf ≡ stream.old.rbuf }
{
    match step {
        Segment(d, bytes, (new, old, differ, over), next) => {
            let wanted = Placed {
                new,
                old,
                differ,
                over,
            };
            is_judged(stream, d, bytes, wanted, next)
        }
        Fin(position, edge, note) => stream.note_fin(position, edge) == note,
    }
}

fn keeps_the_last_eight(stream: &Stream) -> bool {
    let mut kept = [0; 20];
    let mut pieces = stream.pieces(0, 20);
    stream.read_at(stream.low(), &mut kept) == 8
        && &kept[..8] == b"EFGHIJKL".as_slice()
        && (stream.low(), stream.fin()) == (4, Some(12))
        && pieces.next() == Some((4, 8))
        && pieces.next() == None
}

#[test]
fn worked_segments(rt: HostRuntime) {
    let mut stream = Stream::new(rt.alloc(), 8);
    for &(name, step) in WORKED {
        assert!(rt; follows(&mut stream, step), "{name}");
    }
    assert!(rt; keeps_the_last_eight(&stream));
}

// Bytes on both sides of position 2,048 wait for those before them, and are read as one run once these have come.
fn reads_over_a_page(stream: &mut Stream, before: &[u8]) -> bool
    requires { 8192 ≤ stream.old.rbuf }
{
    let mut read = [0; 4];
    is_taken(stream, 2046, b"wxyz")
        && stream.next() == 0
        && is_taken(stream, 0, before)
        && stream.next() == 2050
        && stream.read_at(2046, &mut read) == 4
        && read == *b"wxyz"
}

fn is_taken(stream: &mut Stream, d: i64, bytes: &[u8]) -> bool
    requires { 8192 ≤ stream.old.rbuf }
    ensures { stream.new.rbuf ≡ stream.old.rbuf }
{
    let is_small = d >= 0 && d < 10_000 && bytes.len() < 10_000 && stream.next() < 10_000;
    is_small && stream.place(d, bytes, Policy::First, 8192).is_ok()
}

#[test]
fn reads_across_a_page(rt: HostRuntime) {
    let before = vec![in rt.alloc(); b'.'; 2046].expect(&rt, "memory");
    let mut stream = Stream::new(rt.alloc(), 8192);
    assert!(rt; reads_over_a_page(&mut stream, &before));
}

fn moved<T: Send>(value: T) -> T {
    value
}

fn shared<T: Send + Sync>(value: T) -> T {
    value
}

// A stream can be handed to a thread, and a policy shared by threads.
#[test]
fn crosses_threads(rt: HostRuntime) {
    let stream = moved(Stream::new(rt.alloc(), 1));
    assert!(rt; stream.next() == 0 && shared(Policy::Last) == Policy::Last);
}

/// The bits of a linear congruential generator: enough to vary segments.
#[derive(Drop)]
struct Random(u32);

impl Random {
    fn below(&mut self, n: u32) -> u32
        requires { 0 < n }
        ensures { result < n }
    {
        self.0 = self.0.wrapping_mul(1_664_525).wrapping_add(1_013_904_223);
        (self.0 >> 8) % n
    }
}

fn random_bytes(random: &mut Random) -> [u8; 12] {
    let mut bytes = [0; 12];
    for i in 0..12 {
        bytes[i] = random.below(3) as u8;
    }
    bytes
}

// Whether both have the same `next`, and the same byte or none at each position around the window.
fn keeps_alike(stream: &Stream, plain: &PlainReceiver, rbuf: u32) -> bool {
    let next = stream.next();
    if next != plain.next() || next > 1_000_000 {
        return false;
    }
    for position in next.saturating_sub(40)..next + 40 {
        let mut byte = [0];
        let len = stream.read_at(position, &mut byte);
        let read = if len == 0 { None } else { Some(byte[0]) };
        if read != plain.kept(position, rbuf) {
            return false;
        }
    }
    true
}

fn notes_alike(stream: &mut Stream, plain: &mut PlainReceiver, position: i64, edge: u64) -> bool
    ensures { stream.new.rbuf ≡ stream.old.rbuf }
{
    stream.note_fin(position, edge) == plain.note_fin(position, edge)
}

// Now and then offers a few bytes about `next`. The first offer comes late, so that it may lie below bytes that wait.
fn offers(plain: &mut PlainReceiver, random: &mut Random) {
    let next = plain.next();
    if random.below(6) == 0 && next < 1_000_000 {
        let position = next as i64 + i64::from(random.below(6)) - 3;
        plain.offer(position, random.below(16));
    }
}

// Whether a random segment, and now and then a FIN at its start, is judged alike.
fn takes_alike(
    stream: &mut Stream,
    plain: &mut PlainReceiver,
    random: &mut Random,
    policy: Policy,
    rbuf: u32,
) -> bool
    requires { stream.old.rbuf ≡ rbuf }
    ensures { stream.new.rbuf ≡ rbuf }
{
    let d = i64::from(random.below(40)) - 14;
    let bytes = random_bytes(random);
    let len = random.below(13) as usize;
    let next = stream.next();
    if next > 1_000_000 || plain.next() > 1_000_000 {
        return false;
    }
    let wide = plain.wide(rbuf);
    let placed = stream.place(d, &bytes[..len], policy, wide);
    let is_alike = placed.is_ok() && placed == plain.accept(d, &bytes[..len], policy, rbuf);
    let has_fin = random.below(60) == 0;
    is_alike && (!has_fin || notes_alike(stream, plain, next as i64 + d, next + u64::from(wide)))
}

const TURNS: usize = 40;

// How many random segments, one after another, leave both alike.
fn turns_alike(alloc: Global, policy: Policy, rbuf: u32, seed: u32) -> usize {
    if rbuf < 1 || rbuf > 1_048_576 {
        return 0;
    }
    let mut random = Random(seed);
    let mut stream = Stream::new(alloc, rbuf);
    let mut plain = PlainReceiver::new(alloc);
    for turn in 0..TURNS {
        offers(&mut plain, &mut random);
        let is_alike = takes_alike(&mut stream, &mut plain, &mut random, policy, rbuf)
            && keeps_alike(&stream, &plain, rbuf);
        if !is_alike {
            return turn;
        }
    }
    TURNS
}

// The policy and the size of the receive buffer.
const RUNS: &[(&str, Policy, u32)] = &[
    ("the first byte stays", Policy::First, 16),
    ("the last byte stays", Policy::Last, 24),
];

#[test]
fn agrees_with_the_plain_receiver(rt: HostRuntime) {
    for &(name, policy, rbuf) in RUNS {
        for seed in 0..50 {
            let turns = turns_alike(rt.alloc(), policy, rbuf, seed);
            assert!(rt; turns == TURNS, "{name}, {seed}: {turns} turns");
        }
    }
}
