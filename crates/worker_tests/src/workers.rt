//! A worker that is fed from another thread, and workers that find all in their rings.

ghost use Rattle.std.specs.Prelude.{◌≡◌, ◌≤◌, [], None, IsTrue, IfOk};
ghost use Rattle.forest_versions.specs.Lawful.{are_lawful};
ghost use Rattle.forest_versions.specs.State.{start};
ghost use Rattle.control_script.specs.Order.{commands_of};
ghost use Rattle.lane_worker.specs.Worked.{IsReady};

use crate::failing::Failing;
use crate::frames::{SYN, captured, higher};
use crate::plain::{natives, script};
use app_api::{LogApp, Reason, Verdict};
use control_script::Script;
use lane_core::{Lane, Recorder};
use lane_rings::{
    AnswerBatch, AnswerBatchRx, Batch, BatchTx, CommandTx, FlatBatch, LentAnswer, LentPacket,
    Packet, answer_batch_ring, batch_ring, command_ring,
};
use lane_worker::{OpenGate, Worker, work};
use shared_forest::{ForestStore, StoreUser, Table};
use std::alloc::{AllocError, Global};
use std::sync::atomic::{AtomicBool, Ordering};
use std::sync::{Arc, Wait};
use std::thread;
use std::thread::Threads;

// From packet 100 on all is dropped, until a command that may come at any time.
const SCRIPT: &str = "at 100 reg 16 pkt_in snd do drop\nlive unreg 16";

// The other ends of a worker's rings.
#[derive(Drop)]
struct Ends {
    packets: BatchTx,
    commands: CommandTx,
    answers: Answers,
}

// The answers of a worker in turn: those of the batch at hand, and then those of the next one.
#[derive(Drop)]
struct Answers {
    ring: AnswerBatchRx,
    batch: Option<AnswerBatch>,
    // How many answers of the batch were taken.
    taken: usize,
}

impl Answers {
    fn of(ring: AnswerBatchRx) -> Answers {
        Answers {
            ring,
            batch: None,
            taken: 0,
        }
    }

    // Whether no batch is at hand that has an answer left.
    fn is_used_up(&self) -> bool {
        match &self.batch {
            Some(batch) => batch.len() <= self.taken,
            None => true,
        }
    }

    // The next answer, by the packet's index; none where the ring shows none.
    fn take(&mut self) -> Option<(u64, Verdict)> {
        if self.is_used_up() {
            self.batch = Some(self.ring.take()?);
            self.taken = 0;
        }
        let batch = self.batch.as_ref()?;
        if batch.len() <= self.taken {
            return None;
        }
        let LentAnswer { packet, verdict } = batch.answer(self.taken);
        let index = packet.index;
        self.taken += 1;
        Some((index, verdict))
    }
}

#[derive(Drop)]
struct Flags {
    stop: AtomicBool,
    failed: AtomicBool,
}

fn new_flags(stop: bool) -> Flags {
    Flags {
        stop: AtomicBool::new(stop),
        failed: AtomicBool::new(false),
    }
}

// A worker whose lane has taken nothing yet.
fn worker<L: Recorder + Drop>(
    alloc: Global,
    lane: L,
    script: &Script,
    places: usize,
) -> Result<(Worker<L>, Ends), AllocError>
    requires places { 1 ≤ places }
    requires stands { L.stands lane [] }
    requires given { L.given lane ≡ 0 }
    requires control { L.control lane ≡ start (L.app lane).presets }
    ensures ready { IfOk result (λ r. IsReady L.Recorder (commands_of script.now) r.0.lane r.0.commands) }
    ensures app { IfOk result (λ r. L.app r.0.lane ≡ L.app lane) }
{
    let (packet_tx, packets) = batch_ring(alloc, places)?;
    let (command_tx, commands) = command_ring(alloc, places)?;
    let (answer_tx, answers) = answer_batch_ring(alloc, places)?;
    let worker = Worker {
        number: 0,
        lane,
        packets,
        commands,
        answers: Some(answer_tx),
        used: None,
    };
    let ends = Ends {
        packets: packet_tx,
        commands: command_tx,
        answers: Answers::of(answers),
    };
    Ok((worker, ends))
}

// Works with the plain functions as native filters.
fn work_plainly<R: Wait, L: Recorder + Drop>(
    rt: &R,
    alloc: Global,
    w: Worker<L>,
    script: &Script,
    flags: &Flags,
) -> Worker<L>
    requires ready { L.failed w.lane ≡ None → IsReady L.Recorder (commands_of script.now) w.lane w.commands }
    requires lawful { IsTrue (are_lawful (start (L.app w.lane).presets) (commands_of script.now)) }
    ensures ready { L.failed result.lane ≡ None
        → IsReady L.Recorder (commands_of script.now) result.lane result.commands }
    ensures app { L.app result.lane ≡ L.app w.lane }
{
    work(
        rt,
        alloc,
        w,
        script,
        &natives(),
        &OpenGate,
        &flags.stop,
        &flags.failed,
    )
}

// Sends the first packet of a connection of its own, if there is room.
fn send(ends: &mut Ends, alloc: Global, index: u64, floor: u32, ceil: u32) -> bool {
    let Ok(frame) = captured(alloc, &higher(&SYN, (index % 256) as u8)) else {
        return false;
    };
    let packet = Packet {
        index,
        floor,
        ceil,
        frame,
    };
    ends.packets.send(Batch::Single(packet)).is_ok()
}

// Takes an answer, and waits for it.
fn take<R: Wait>(rt: &R, answers: &mut Answers) -> (u64, Verdict) {
    for _ in rt.forever() {
        if let Some(answer) = answers.take() {
            return answer;
        }
        thread::yield_now();
    }
    unreachable!()
}

// Sends four packets, from this number on.
fn send_four(ends: &mut Ends, alloc: Global, script: &Script, first: u64) -> bool {
    for index in first..first.saturating_add(4) {
        if !send(ends, alloc, index, script.floor(index), script.ceil(index)) {
            return false;
        }
    }
    true
}

// What becomes of a packet: the second command is told of once 152 packets are answered.
fn verdict_on(index: u64) -> Verdict {
    if (100..152).contains(&index) {
        Verdict::Drop(Reason::Reg(16))
    } else {
        Verdict::Pass
    }
}

// How many of four packets, from this number on, are answered in order and as they must be.
fn take_four<R: Wait>(rt: &R, answers: &mut Answers, first: u64) -> u64 {
    let mut right = 0u64;
    for index in first..first.saturating_add(4) {
        if take(rt, answers) == (index, verdict_on(index)) {
            right = right.wrapping_add(1);
        }
    }
    right
}

// How many of 200 packets, sent four at a time, are answered in order and as they must be. The first command is told of
// only behind the first packets that need it.
fn feed<R: Wait>(rt: &R, alloc: Global, ends: Ends, script: &Script, stop: &AtomicBool) -> u64 {
    let mut ends = ends;
    let mut right = 0u64;
    for block in 0..50u64 {
        let told_before = block != 38 || ends.commands.send(1).is_ok();
        let sent = send_four(&mut ends, alloc, script, 4 * block);
        let told_behind = block != 25 || ends.commands.send(0).is_ok();
        if !told_before || !sent || !told_behind {
            break;
        }
        right = right.wrapping_add(take_four(rt, &mut ends.answers, 4 * block));
    }
    stop.store(true, Ordering::SeqCst);
    right
}

// Works in this thread, and is fed from another one. Answers the lane's version, and how many packets were answered right.
fn work_beside<R: Threads + Wait + Sync, L: Recorder + Drop>(
    rt: &R,
    alloc: Global,
    lane: L,
    script: &Script,
) -> Option<(u32, u64)>
    requires stands { L.stands lane [] }
    requires given { L.given lane ≡ 0 }
    requires control { L.control lane ≡ start (L.app lane).presets }
    requires lawful { IsTrue (are_lawful (start (L.app lane).presets) (commands_of script.now)) }
{
    let (w, ends) = worker(alloc, lane, script, 4).ok()?;
    let flags = new_flags(false);
    let flags = &flags;
    let (right, w) = thread::join(
        rt,
        move || feed(rt, alloc, ends, script, &flags.stop),
        move || -> Worker<L>
            requires { IsReady L.Recorder (commands_of script.now) w.lane w.commands
                × IsTrue (are_lawful (start (L.app w.lane).presets) (commands_of script.now)) }
        { work_plainly(rt, alloc, w, script, flags) },
    );
    Some((w.lane.version(), right))
}

fn answers_beside<R: Threads + Wait + Sync>(rt: &R, alloc: Global) -> Option<(u32, u64)> {
    let script = script(alloc, SCRIPT)?;
    let store = Arc::new(alloc, ForestStore::new(alloc).ok()?).ok()?;
    let Ok(lane) = Lane::new(alloc, LogApp, StoreUser::new(store, rt), true) else {
        return None;
    };
    work_beside(rt, alloc, lane, &script)
}

#[test]
fn answers_come_back_between_threads_in_order(rt: HostRuntime) {
    assert!(rt; answers_beside(&rt, rt.alloc()) == Some((2, 200)));
}

// The indices that are answered, at most three, and how many commands the lane has.
type Answered = ([u64; 3], u32);

fn answered<L: Recorder + Drop>(w: &Worker<L>, ends: &mut Ends) -> Answered {
    let mut indices = [0u64; 3];
    for index in &mut indices {
        if let Some((number, _)) = ends.answers.take() {
            *index = number;
        }
    }
    (indices, w.lane.version())
}

// Packets with their floors and ceilings. From the third on they don't fit: an index that came, a floor above the ceiling, a
// ceiling that no script has, and one below the lane's version.
const SENT: [(u64, u32, u32); 6] = [
    (1, 0, 0),
    (3, 0, 1),
    (3, 1, 1),
    (4, 2, 1),
    (5, 1, 3),
    (6, 0, 0),
];

fn send_all(ends: &mut Ends, alloc: Global, packets: &[(u64, u32, u32)]) -> bool {
    for (index, floor, ceil) in packets {
        if !send(ends, alloc, *index, *floor, *ceil) {
            return false;
        }
    }
    true
}

// The same, in one flat batch.
fn send_flat(ends: &mut Ends, alloc: Global, packets: &[(u64, u32, u32)]) -> bool {
    let mut batch = FlatBatch::new(alloc);
    for (index, floor, ceil) in packets {
        let Ok(frame) = captured(alloc, &higher(&SYN, (*index % 256) as u8)) else {
            return false;
        };
        if batch
            .push(&LentPacket::in_frame(*index, *floor, *ceil, &frame))
            .is_err()
        {
            return false;
        }
    }
    ends.packets.send(Batch::Flat(batch)).is_ok()
}

// What a worker that finds all in its rings answers, called twice. The first packets come one by one, or in a flat batch.
fn work_twice<R: Wait, L: Recorder + Drop>(
    rt: &R,
    alloc: Global,
    lane: L,
    script: &Script,
    flags: &Flags,
    is_flat: bool,
) -> Option<(Answered, Answered)>
    requires stands { L.stands lane [] }
    requires given { L.given lane ≡ 0 }
    requires control { L.control lane ≡ start (L.app lane).presets }
    requires lawful { IsTrue (are_lawful (start (L.app lane).presets) (commands_of script.now)) }
{
    let (w, mut ends) = worker(alloc, lane, script, 8).ok()?;
    let told = ends.commands.send(0).is_ok() && ends.commands.send(1).is_ok();
    let sent = if is_flat {
        send_flat(&mut ends, alloc, &SENT)
    } else {
        send_all(&mut ends, alloc, &SENT)
    };
    let w = work_plainly(rt, alloc, w, script, flags);
    let first = answered(&w, &mut ends);
    let sent = sent && send(&mut ends, alloc, 7, 2, 2);
    let w = work_plainly(rt, alloc, w, script, flags);
    let second = answered(&w, &mut ends);
    if told && sent {
        Some((first, second))
    } else {
        None
    }
}

// What a worker answers, and whether its lane failed: its lane fails at the packet of a number, where one is given.
fn answers_twice<R: Wait>(
    rt: &R,
    alloc: Global,
    fails_at: Option<u64>,
    is_flat: bool,
) -> Option<(Answered, Answered, bool)> {
    let script = script(alloc, SCRIPT)?;
    let Ok(inner) = Lane::new(alloc, LogApp, Table::new(alloc), true) else {
        return None;
    };
    let flags = new_flags(true);
    let (first, second) = match fails_at {
        None => work_twice(rt, alloc, inner, &script, &flags, is_flat)?,
        Some(at) => {
            let lane = Failing {
                inner,
                at,
                has_failed: false,
            };
            work_twice(rt, alloc, lane, &script, &flags, is_flat)?
        }
    };
    Some((first, second, flags.failed.load(Ordering::SeqCst)))
}

// A name, the packet at which the lane fails, and then the packets that are answered and the lane's version after each call, and
// whether the lane failed.
const ROWS: &[(&str, Option<u64>, (Answered, Answered, bool))] = &[
    (
        "packets that fit are answered, and places are left",
        None,
        (([1, 3, 0], 1), ([7, 0, 0], 2), false),
    ),
    (
        "a lane that failed answers nothing",
        Some(3),
        (([1, 0, 0], 1), ([0, 0, 0], 1), true),
    ),
];

#[test]
fn a_worker_answers_what_fits(rt: HostRuntime) {
    for &(name, fails_at, want) in ROWS {
        for is_flat in [false, true] {
            assert!(rt;
                answers_twice(&rt, rt.alloc(), fails_at, is_flat) == Some(want),
                "{name}, flat: {is_flat}"
            );
        }
    }
}

// How many packets a worker gives back that answers nobody, of three of which two fit.
fn gives_back<R: Wait, L: Recorder + Drop>(
    rt: &R,
    alloc: Global,
    lane: L,
    script: &Script,
) -> Option<usize>
    requires stands { L.stands lane [] }
    requires given { L.given lane ≡ 0 }
    requires control { L.control lane ≡ start (L.app lane).presets }
    requires lawful { IsTrue (are_lawful (start (L.app lane).presets) (commands_of script.now)) }
{
    let (mut w, mut ends) = worker(alloc, lane, script, 4).ok()?;
    let (used_tx, mut used) = batch_ring(alloc, 4).ok()?;
    w.answers = None;
    w.used = Some(used_tx);
    if !send_all(&mut ends, alloc, &[(1, 0, 0), (1, 0, 0), (2, 0, 0)]) {
        return None;
    }
    let _done = work_plainly(rt, alloc, w, script, &new_flags(true));
    let mut back = 0usize;
    for _ in 0..3 {
        if used.take().is_some() {
            back = back.wrapping_add(1);
        }
    }
    Some(back)
}

fn packets_come_back<R: Wait>(rt: &R, alloc: Global) -> Option<usize> {
    let script = script(alloc, SCRIPT)?;
    let Ok(lane) = Lane::new(alloc, LogApp, Table::new(alloc), true) else {
        return None;
    };
    gives_back(rt, alloc, lane, &script)
}

#[test]
fn packets_that_fit_come_back(rt: HostRuntime) {
    assert!(rt; packets_come_back(&rt, rt.alloc()) == Some(2));
}
