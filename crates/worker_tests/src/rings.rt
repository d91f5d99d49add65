//! Rings between threads, and the resequencer.

ghost use Rattle.std.specs.Prelude.{◌≡◌};
ghost use Rattle.lane_rings.specs.Ring.{SameTx, SameRx};

use app_api::{Reason, Verdict};
use lane_rings::{
    Answer, CommandRx, CommandTx, Packet, PacketRx, PacketTx, Resequencer, answer_ring,
    command_ring, packet_ring,
};
use pcap_source::Frame;
use std::alloc::Global;
use std::sync::Wait;
use std::test::Fail;
use std::thread;
use std::thread::Threads;

fn packet(alloc: Global, index: u64) -> Packet {
    Packet {
        index,
        floor: 0,
        ceil: 0,
        frame: Frame::new(alloc),
    }
}

fn answer(alloc: Global, index: u64, verdict: Verdict) -> Answer {
    Answer {
        index,
        verdict,
        frame: Frame::new(alloc),
    }
}

// Asks that a type may be handed to a thread.
fn handed<T: Send>(value: T) -> T
    ensures { result ≡ value }
{
    value
}

// Sends one packet, and waits for room.
fn send_waiting(rt: &impl Wait, tx: &mut PacketTx, packet: Packet)
    ensures { SameTx tx.old tx.new }
{
    let mut packet = packet;
    for _ in rt.forever() {
        match tx.send(packet) {
            Ok(()) => return,
            Err(back) => packet = back,
        }
        thread::yield_now();
    }
    unreachable!()
}

// Takes one packet, and waits for it. Answers its index.
fn take_waiting(rt: &impl Wait, rx: &mut PacketRx) -> u64
    ensures { SameRx rx.old rx.new }
{
    for _ in rt.forever() {
        if let Some(packet) = rx.take() {
            return packet.index;
        }
        thread::yield_now();
    }
    unreachable!()
}

fn send_all(rt: &impl Wait, alloc: Global, tx: PacketTx, count: u64) -> PacketTx
    ensures { SameTx tx result }
{
    let mut tx = tx;
    for index in 0..count {
        send_waiting(rt, &mut tx, packet(alloc, index));
    }
    tx
}

// The end that took, and how many packets came in turn.
#[derive(Drop)]
struct Taken {
    rx: PacketRx,
    in_turn: u64,
}

fn take_all(rt: &impl Wait, rx: PacketRx, count: u64) -> Taken
    ensures { SameRx rx result.rx }
{
    let mut rx = rx;
    let mut in_turn = 0u64;
    for index in 0..count {
        if take_waiting(rt, &mut rx) == index {
            in_turn = in_turn.wrapping_add(1);
        }
    }
    Taken { rx, in_turn }
}

// How many of a thousand packets cross a ring of one place in turn, and how many are left in it.
fn crosses<R: Threads + Wait + Sync>(rt: &R, alloc: Global) -> Option<(u64, usize)> {
    let (tx, rx) = packet_ring(alloc, 1).ok()?;
    let (mut tx, taken) = thread::join(
        rt,
        move || -> PacketTx
            ensures { SameTx tx result }
        { send_all(rt, alloc, tx, 1000) },
        move || -> Taken
            ensures { SameRx rx result.rx }
        { take_all(rt, rx, 1000) },
    );
    let mut rx = taken.rx;
    Some((taken.in_turn, rx.beside(&mut tx)))
}

#[test]
fn packets_cross_a_ring_of_one_place_between_threads(rt: HostRuntime) {
    assert!(rt; crosses(&rt, rt.alloc()) == Some((1000, 0)));
}

// What is done with a ring of two places, and what comes of it.
#[derive(Clone, Copy)]
enum Move {
    Send(u32, Result<(), u32>),
    Take(Option<u32>),
}

const MOVES: &[(&str, Move)] = &[
    ("the first has room", Move::Send(7, Ok(()))),
    ("so has the second", Move::Send(8, Ok(()))),
    ("the third is handed back", Move::Send(9, Err(9))),
    ("the first comes first", Move::Take(Some(7))),
    ("its place is free again", Move::Send(9, Ok(()))),
    ("then comes the second", Move::Take(Some(8))),
    ("and the one sent last", Move::Take(Some(9))),
    ("then there is nothing", Move::Take(None)),
];

fn does(tx: &mut CommandTx, rx: &mut CommandRx, asked: Move) -> bool {
    match asked {
        Move::Send(item, answer) => tx.send(item) == answer,
        Move::Take(answer) => rx.take() == answer,
    }
}

#[test]
fn a_full_ring_hands_back(rt: HostRuntime) -> Result<(), Fail> {
    let (tx, rx) = command_ring(rt.alloc(), 2)?;
    let (mut tx, mut rx) = (handed(tx), handed(rx));
    for &(name, asked) in MOVES {
        assert!(rt; does(&mut tx, &mut rx, asked), "{name}");
    }
    Ok(())
}

// How many items are left in a ring of two places after three were sent.
fn left_of_three(alloc: Global) -> Option<usize> {
    let (mut tx, mut rx) = command_ring(alloc, 2).ok()?;
    let _first = tx.send(7);
    let _second = tx.send(8);
    let _full = tx.send(9);
    Some(rx.beside(&mut tx))
}

#[test]
fn both_ends_show_what_is_left(rt: HostRuntime) {
    assert!(rt; left_of_three(rt.alloc()) == Some(2));
}

// What comes back of an answer.
fn comes_back(alloc: Global, index: u64, verdict: Verdict) -> Option<(u64, Verdict)> {
    let (mut tx, mut rx) = answer_ring(alloc, 1).ok()?;
    let _full = tx.send(answer(alloc, index, verdict));
    rx.take().map(|answer| (answer.index, answer.verdict))
}

#[test]
fn an_answer_comes_back_with_its_verdict(rt: HostRuntime) {
    let drop = Verdict::Drop(Reason::Rule(10));
    assert!(rt; comes_back(rt.alloc(), 3, drop) == Some((3, drop)));
}

fn next_index(r: &mut Resequencer) -> Option<u64> {
    r.next().map(|answer| answer.index)
}

// What is done with a resequencer of four places, and what comes of it.
#[derive(Clone, Copy)]
enum Turn {
    /// Offers an index: taken up, or handed back.
    Offer(u64, Option<u64>),
    Next(Option<u64>),
    Reaches(u64, bool),
}

const TURNS: &[(&str, Turn)] = &[
    ("one that comes early", Turn::Offer(2, None)),
    ("the first", Turn::Offer(0, None)),
    ("the last place", Turn::Reaches(3, true)),
    ("one past the last place", Turn::Reaches(4, false)),
    ("one too far ahead is handed back", Turn::Offer(4, Some(4))),
    ("the first leaves", Turn::Next(Some(0))),
    ("the second isn't there", Turn::Next(None)),
    ("the second comes", Turn::Offer(1, None)),
    ("it leaves", Turn::Next(Some(1))),
    ("and the one that waited", Turn::Next(Some(2))),
    ("nothing waits", Turn::Next(None)),
    ("what has left is handed back", Turn::Offer(2, Some(2))),
];

fn goes(alloc: Global, r: &mut Resequencer, turn: Turn) -> bool {
    match turn {
        Turn::Offer(index, back) => {
            let offered = r.offer(answer(alloc, index, Verdict::Pass));
            offered.err().map(|answer| answer.index) == back
        }
        Turn::Next(index) => next_index(r) == index,
        Turn::Reaches(index, reaches) => r.reaches(index) == reaches,
    }
}

#[test]
fn answers_leave_in_order(rt: HostRuntime) -> Result<(), Fail> {
    let alloc = rt.alloc();
    let mut r = handed(Resequencer::new(alloc, 4)?);
    for &(name, turn) in TURNS {
        assert!(rt; goes(alloc, &mut r, turn), "{name}");
    }
    Ok(())
}

// Offers the indices from `low` to below `high` from the last to the first. Answers how many were taken up.
fn offer_backwards(alloc: Global, r: &mut Resequencer, low: u64, high: u64) -> u64 {
    let mut offered = 0u64;
    for index in (low..high).rev() {
        if r.offer(answer(alloc, index, Verdict::Pass)).is_ok() {
            offered = offered.wrapping_add(1);
        }
    }
    offered
}

// Takes the indices from `low` to below `high`. Answers how many came in turn.
fn leave_in_turn(r: &mut Resequencer, low: u64, high: u64) -> u64 {
    let mut left = 0u64;
    for index in low..high {
        if next_index(r) == Some(index) {
            left = left.wrapping_add(1);
        }
    }
    left
}

#[test]
fn blocks_that_come_backwards_leave_forwards(rt: HostRuntime) -> Result<(), Fail> {
    let alloc = rt.alloc();
    let mut r = Resequencer::new(alloc, 4096)?;
    for block in 0..49u64 {
        let low = block * 4096;
        let high = (low + 4096).min(200_000);
        let offered = offer_backwards(alloc, &mut r, low, high);
        let left = leave_in_turn(&mut r, low, high);
        assert!(rt;
            (offered, left, next_index(&mut r)) == (high - low, high - low, None),
            "block {block}"
        );
    }
    Ok(())
}
