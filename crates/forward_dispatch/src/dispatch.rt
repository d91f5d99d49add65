//! A forward run under way: it reads a capture, sends each packet to its lane, and writes what the lanes let pass, in the
//! order of the capture.

ghost use Rattle.std.specs.Prelude.{◌≡◌, ◌≢◌, ◌<◌, ◌≤◌, ◌+◌, ◌⊎◌, [], ◌∷◌, List, Option, None, Some, ℕ, length, true, false, Ok, Err, IfOk, IfErr, OnOk, OnErr, IsOk, IsErrOf, IsTrue};
ghost use Rattle.std.specs.List.{All};
ghost use Rattle.mos_bytes.specs.Causes.{Rose};
ghost use Rattle.mos_bytes.specs.Outside.{Reads, Writes};
ghost use Rattle.pcap_source.specs.Captured.{Captured};
ghost use Rattle.pcap_source.specs.Reading.{CaptureState, NextGives, Opened};
ghost use Rattle.pcap_source.specs.declared.errors.NextError.TheVariants.{ReadFault as NextFault};
ghost use Rattle.lane_worker.specs.declared.worker.Worker.{Worker as Begun};
ghost use Rattle.worker_pool.specs.GoesOn.{IsReadTo};
ghost use Rattle.worker_pool.specs.Inputs.{Dealt};
ghost use Rattle.forward_dispatch.specs.Given.{given_by};
ghost use Rattle.forward_dispatch.specs.OnTheirWay.{AreFew, sent_on};
ghost use Rattle.forward_dispatch.specs.Streamed.{ReadsAndWrites, Streamed};
ghost use Rattle.forward_dispatch.specs.Turns.{HasSent, HasSentNone, HasSentSome, IsUnderWay, LeavesSo, Settles, WentOn, SendsOne, IsRead, EndsSo};

use crate::lane_answers::LaneAnswers;
use crate::on_their_way::{ON_THEIR_WAY, OnTheirWay};
use flow_timers::Moment;
use lane_composition::forward::{later_lanes_change_nothing, nothing_has_left, the_next_leaves};
use lane_core::Recorder;
use lane_join::{greatest_with, moment_of};
use lane_rings::BatchRx;
use lane_worker::{Backoff, Gate, WorkerContext};
use mos_bytes::{Sink, Source};
use pcap_source::{Capture, Frame, Step};
use std::alloc::{AllocError, Global};
use std::sync::Wait;
use std::sync::atomic::Ordering;
use worker_pool::PoolError;
use worker_pool::team::dealing::deal_frame;
use worker_pool::team::dispatch::Whole;
use worker_pool::team::lane_input::{LaneInput, flush_all, take_turns};

/// A forward run on several lanes under way.
///
/// The answer ring of a lane has to have as many places as packets may be on their way, [`ON_THEIR_WAY`]. So a worker never
/// waits for room to answer: one that is in this thread would wait for good, since what it waits for is done by the same
/// thread.
#[derive(Drop)]
pub struct Dealing<L: Recorder + Drop> {
    /// Where the packets of each lane are sent, while the capture is read.
    pub inputs: Vec<LaneInput<L>>,
    /// The packets that were sent and have not left.
    pub way: OnTheirWay,
    /// The greatest moment of the packets that were sent; none where there is none.
    pub last: Option<Moment>,
    // What the capture is read into.
    frame: Frame,
    // Where batches come back whose answers were given out, from each lane.
    used: Vec<BatchRx>,
}

// What a run ends with whose reading ended with `read`, and whose last packets then left as `settled` says. A fault of
// writing comes first, then why reading ended.
fn ended_with(
    read: Result<Whole, PoolError>,
    settled: Result<(), PoolError>,
) -> Result<Whole, PoolError>
    ensures well { OnOk settled (result ≡ read) }
    ensures fault { settled ≡ Err PoolError.WriteFault → result ≡ Err PoolError.WriteFault }
    ensures other { IfErr settled (λ e. e ≢ PoolError.WriteFault → IfErr read (λ first. result ≡ Err first)) }
    ensures only { IfErr settled (λ e. IsOk read → result ≡ Err e) }
{
    match settled {
        Ok(()) => read,
        Err(PoolError::WriteFault) => Err(PoolError::WriteFault),
        Err(refused) => {
            read?;
            Err(refused)
        }
    }
}

// Whether reading ended with a fault of writing.
fn is_write_fault(read: &Result<Whole, PoolError>) -> bool
    ensures fault { result ≡ true → read.now ≡ Err PoolError.WriteFault }
    ensures other { result ≡ false → read.now ≢ Err PoolError.WriteFault }
{
    matches!(read, Err(PoolError::WriteFault))
}

impl<L: Recorder + Drop> Dealing<L> {
    /// A run that has sent nothing, to lanes that answer so. Batches whose answers were given out come back through `used`,
    /// from each lane. It takes the memory for what is on its way at once.
    pub fn new(
        alloc: Global,
        all_answers: Vec<LaneAnswers>,
        used: Vec<BatchRx>,
    ) -> Result<Dealing<L>, AllocError>
        requires ungiven { All (λ r. given_by r ≡ []) all_answers.items }
        ensures leaves { IfOk result (λ d. (out : Option (List ℕ)) → LeavesSo [] d out out) }
        ensures answers { IfOk result (λ d. d.way.all_answers.items ≡ all_answers.items) }
        ensures last { IfOk result (λ d. d.last ≡ None) }
    {
        nothing_has_left();
        Ok(Dealing {
            inputs: Vec::new(alloc),
            way: OnTheirWay::new(alloc, all_answers)?,
            last: None,
            frame: Frame::new(alloc),
            used,
        })
    }

    // Waits until at most so many packets are on their way. Till then the records whose turn comes are written, and workers
    // that are in this thread take up packets.
    //
    // An error is that a record can't be written, or that a lane has failed: then its packets have no answers, and the
    // others may never leave.
    fn settle<R: Wait, O: Sink, G: Gate>(
        &mut self,
        context: &WorkerContext<'_, R, G>,
        most: usize,
        out: &mut O,
    ) -> Result<(), PoolError>
        requires begins { HasSentSome L.Recorder context.now.script.now self.old }
        ensures settles { Settles L.Recorder context.now.script.now self.old self.new
            (O.taken out.old) (O.taken out.new) (result ≢ Err PoolError.WriteFault) }
        ensures few { OnOk result (length self.new.way.lanes.items ≤ most) }
        ensures only { IfErr result (λ e. (e ≡ PoolError.WriteFault) ⊎ (e ≡ PoolError.NoMemory)) }
        ensures writes { Writes O.Sink out.old out.new (IsErrOf result PoolError.WriteFault) }
    {
        the_next_leaves();
        flush_all(context, &mut self.inputs, self.used.as_mut_slice());
        let mut backoff = Backoff::eager();
        for _ in context.rt.forever() {
            let before = self.way.len();
            self.way.write_ready(out)?;
            let now = self.way.len();
            if now <= most {
                return Ok(());
            }
            if context.failed.load(Ordering::SeqCst) {
                return Err(PoolError::NoMemory);
            }
            let worked = take_turns(context, &mut self.inputs);
            backoff.looked(context.rt, worked || now < before);
        }
        unreachable!()
    }

    // Waits until the next packet may be read: its place is there, and where the source would ask the outside for it, no
    // packet is on its way any more. So what has come in is decided and written before more is waited for, and the output
    // holds nothing back that the outside could wait for.
    fn await_place<R: Wait, S: Source, O: Sink, G: Gate>(
        &mut self,
        context: &WorkerContext<'_, R, G>,
        capture: &Capture,
        source: &S,
        out: &mut O,
    ) -> Result<(), PoolError>
        requires begins { HasSentSome L.Recorder context.now.script.now self.old }
        ensures settles { Settles L.Recorder context.now.script.now self.old self.new
            (O.taken out.old) (O.taken out.new) (result ≢ Err PoolError.WriteFault) }
        ensures place { OnOk result (length self.new.way.lanes.items < 4096) }
        ensures only { IfErr result (λ e. (e ≡ PoolError.WriteFault) ⊎ (e ≡ PoolError.NoMemory)) }
        ensures writes { Writes O.Sink out.old out.new (IsErrOf result PoolError.WriteFault) }
    {
        the_next_leaves();
        if !capture.is_at_hand(source) {
            self.settle(context, 0, out)?;
            return Ok(out.flush()?);
        }
        if self.way.len() < ON_THEIR_WAY {
            return Ok(());
        }
        self.settle(context, ON_THEIR_WAY / 2, out)
    }

    // Sends the packet that was read to its lane. Where memory for it is refused, nothing is sent.
    fn send_next<R: Wait, G: Gate>(
        &mut self,
        context: &WorkerContext<'_, R, G>,
    ) -> Result<(), AllocError>
        requires few { sent_on self.old.way < 1048576 }
        requires place { length self.old.way.lanes.items < 4096 }
        requires under_way { IsUnderWay L.Recorder context.now.script.now self.old }
        ensures went { OnOk result ((now : Option (List ℕ))
            → WentOn L.Recorder context.now.script.now self.old self.new now now (self.old.frame ∷ [])) }
        ensures kept { OnErr result ((now : Option (List ℕ))
            → WentOn L.Recorder context.now.script.now self.old self.new now now []) }
        ensures sent { OnOk result (sent_on self.new.way ≡ sent_on self.old.way + 1) }
        ensures next { self.new.way.next ≡ self.old.way.next }
    {
        later_lanes_change_nothing();
        let index = self.way.sent();
        let used = self.used.as_mut_slice();
        let lane = deal_frame(context, &mut self.inputs, used, index, &self.frame)?;
        self.last = greatest_with(self.last, moment_of(&self.frame));
        self.way.join(lane);
        Ok(())
    }

    // What was read, before a tail of so many bytes.
    fn whole(&self, tail: u32) -> Whole
        ensures packets { result.packets ≡ sent_on self.now.way }
        ensures tail { result.tail ≡ tail }
        ensures last { result.last ≡ self.now.last }
    {
        Whole {
            packets: self.way.sent(),
            tail,
            last: self.last,
        }
    }

    /// One turn: waits until the next packet of a live capture may be read, reads it, and sends it to the input of its lane, where
    /// it may wait for others. At the end of the capture it answers what was read; none before.
    ///
    /// A packet is read where its place is there, so never are more than 4,096 on their way. Where the source would ask the
    /// outside for it, all packets before it have been decided and written. Till then answers are taken and written, and
    /// lanes whose workers are in this thread are worked on. Where a lane raised `failed`, or memory for the packet is refused,
    /// it ends with want of memory.
    pub fn turn<R: Wait, S: Source, O: Sink, G: Gate>(
        &mut self,
        context: &WorkerContext<'_, R, G>,
        capture: &mut Capture,
        source: &mut S,
        out: &mut O,
    ) -> Result<Option<Whole>, PoolError>
        requires live { IsTrue capture.old.is_live }
        requires count { capture.old.count ≡ sent_on self.old.way }
        requires under_way { IsUnderWay L.Recorder context.now.script.now self.old }

        // What was read and has not left is at most 4,096 packets, however the turn ends.
        ensures on_their_way { AreFew capture.new.count self.new.way }
        ensures sends { result ≡ Ok None
            → SendsOne L.Recorder context.now.script.now self.old self.new capture.old capture.new
            (S.left source.old) (S.left source.new) (O.taken out.old) (O.taken out.new) }
        ensures ends { (begins : List (Begun L)) (frames : List Captured) (start : CaptureState)
            (first before : Option (List ℕ))
            → length frames ≤ 1048576 → HasSent L.Recorder context.now.script.now begins frames self.old
            → ((bytes : List ℕ) → first ≡ Some bytes → IsReadTo start bytes frames capture.old (S.left source.old))
            → LeavesSo frames self.old before (O.taken out.old)
            → EndsSo L.Recorder context.now.script.now start first (S.left source.new) begins self.new before
            (O.taken out.new) result }
        ensures ended { IfOk result (λ told. told ≢ None → S.ended source.new) }
        ensures cut { result ≡ Err PoolError.ReadFault → (frame : Captured)
            × NextGives capture.old capture.new (S.left source.old) (S.left source.new) frame (Err NextFault) }
        ensures reads { Reads S.Source source.old source.new (IsErrOf result PoolError.ReadFault) }
        ensures writes { Writes O.Sink out.old out.new (IsErrOf result PoolError.WriteFault) }
        ensures stopped { IsTrue capture.new.is_live → result ≢ Ok None
            → ((result ≡ Err PoolError.WriteFault) ⊎ (result ≡ Err PoolError.NoMemory))
            × (capture.new ≡ capture.old) × (source.new ≡ source.old) }
    {
        the_next_leaves();
        self.await_place(context, capture, source, out)?;
        match capture.next(source, &mut self.frame)? {
            Step::Frame => match self.send_next(context) {
                Ok(()) => Ok(None),
                Err(_) => {
                    capture.stop();
                    Err(PoolError::NoMemory)
                }
            },
            Step::Tail(tail) => Ok(Some(self.whole(tail))),
            Step::End => Ok(Some(self.whole(0))),
        }
    }

    // Reads an opened capture to its end or its tail, or to where it is refused, as `stream` does. Packets may still be on
    // their way then.
    fn read_all<R: Wait, S: Source, O: Sink, G: Gate>(
        &mut self,
        context: &WorkerContext<'_, R, G>,
        capture: &mut Capture,
        source: &mut S,
        out: &mut O,
    ) -> Result<Whole, PoolError>
        requires opened { Opened capture.old }
        requires some { 1 ≤ length self.old.inputs.items }
        requires begins { HasSentNone L.Recorder context.now.script.now self.old (O.taken out.old) }
        ensures read { (begins : List (Begun L)) (before : Option (List ℕ))
            → HasSent L.Recorder context.now.script.now begins [] self.old
            → LeavesSo [] self.old before (O.taken out.old)
            → (frames : List Captured) × IsRead L.Recorder context.now.script.now capture.old (S.left source.old)
            (S.left source.new) begins self.new before (O.taken out.new) frames result }
        ensures sent { HasSentSome L.Recorder context.now.script.now self.new }
        ensures on_their_way { AreFew capture.new.count self.new.way }
        ensures outside { ReadsAndWrites S.Source O.Sink capture.old capture.new source.old source.new
            out.old out.new result }
    {
        loop {
            match self.turn(context, capture, source, out)? {
                Some(whole) => return Ok(whole),
                None => {}
            }
        }
    }

    // Waits until all packets that were sent have left, where reading ended with `read`, but at a fault of writing. It ends
    // with `read`, unless it fails itself.
    fn conclude<R: Wait, O: Sink, G: Gate>(
        &mut self,
        context: &WorkerContext<'_, R, G>,
        out: &mut O,
        read: Result<Whole, PoolError>,
    ) -> Result<Whole, PoolError>
        requires begins { HasSentSome L.Recorder context.now.script.now self.old }
        ensures streamed { (begins : List (Begun L)) (frames : List Captured) (start : CaptureState)
            (first left before : Option (List ℕ))
            → IsRead L.Recorder context.now.script.now start first left begins self.old before (O.taken out.old)
            frames read
            → Dealt L.Recorder context.now.script.now begins self.new.inputs.items
            (λ sent. Streamed begins sent self.new.way.all_answers.items start first left before (O.taken out.new)
            result) }
        ensures later { self.old.way.next ≤ self.new.way.next }
        ensures ok { IsOk result → IsOk read }
        ensures error { IfErr read (λ e. (result ≡ Err e) ⊎ (result ≡ Err PoolError.WriteFault)) }
        ensures read_fault { IsErrOf result PoolError.ReadFault → IsErrOf read PoolError.ReadFault }
        ensures faults { O.faults out.old ≤ O.faults out.new }
        ensures write_fault { IsErrOf result PoolError.WriteFault → IsErrOf read PoolError.WriteFault
            ⊎ Rose (O.faults out.old) (O.faults out.new) }
        ensures lasts { O.lasting out.new ≡ O.lasting out.old }
    {
        if is_write_fault(&read) {
            return read;
        }
        let settled = self.settle(context, 0, out);
        ended_with(read, settled)
    }

    /// Reads an opened capture to its end or its tail, or to where it is refused, sends each packet to the input of its
    /// lane, and writes what the lanes let pass, in the order of the capture. It waits until all that was sent has left,
    /// unless a record can't be written or a lane fails.
    pub fn stream<R: Wait, S: Source, O: Sink, G: Gate>(
        &mut self,
        context: &WorkerContext<'_, R, G>,
        capture: &mut Capture,
        source: &mut S,
        out: &mut O,
    ) -> Result<Whole, PoolError>
        requires opened { Opened capture.old }
        requires some { 1 ≤ length self.old.inputs.items }
        requires begins { HasSentNone L.Recorder context.now.script.now self.old (O.taken out.old) }
        ensures streamed { (begins : List (Begun L)) (before : Option (List ℕ))
            → HasSent L.Recorder context.now.script.now begins [] self.old
            → LeavesSo [] self.old before (O.taken out.old)
            → Dealt L.Recorder context.now.script.now begins self.new.inputs.items
            (λ frames. Streamed begins frames self.new.way.all_answers.items
            capture.old (S.left source.old) (S.left source.new) before (O.taken out.new) result) }
        ensures on_their_way { AreFew capture.new.count self.new.way }
        ensures outside { ReadsAndWrites S.Source O.Sink capture.old capture.new source.old source.new
            out.old out.new result }
    {
        let read = self.read_all(context, capture, source, out);
        self.conclude(context, out, read)
    }
}
