//! Reading a capture front to back.

ghost use Rattle.std.specs.Prelude.{◌≡◌, ◌+◌, ◌*◌, ◌<◌, ◌≤◌, ◌⊎◌, ◌↔◌, ℕ, List, length, take, drop, Some, IsTrue, IfSome, IfOk, OnOk, OnErr, IfErr, IsErrOf, Err, true, false, ◌≢◌};
ghost use Rattle.std.specs.Bool.{OnTrue, OnFalse};
ghost use Rattle.std.specs.Io.KnownBytes.{Consumes};
ghost use Rattle.mos_bytes.specs.Causes.{HasCauseOf};
ghost use Rattle.mos_bytes.specs.Outside.{Reads};
ghost use Rattle.mos_bytes.specs.Reads.{Fills, FillsPart};
ghost use Rattle.pcap_source.specs.Captured.{record_bytes};
ghost use Rattle.pcap_source.specs.Capture.{is_whole, captured_by};
ghost use Rattle.pcap_source.specs.Order.{number_in};
ghost use Rattle.pcap_source.specs.InPlace.{Tells};
ghost use Rattle.pcap_source.specs.Reading.{CaptureState, IsRecord, IsTold, NextGives, RefusesAt};
ghost use Rattle.pcap_source.specs.Stepping.{GivesAt, StepTells};

use crate::header::{HEADER, judge_header};
use crate::{Frame, NextError, OpenError, Order};
use mos_bytes::{Source, fill};
use std::alloc::AllocError;
use std::marker::Model;

/// How many records a capture may have.
pub const RECORD_LIMIT: u32 = 1_048_576;

/// How many bytes of one packet may have been captured.
pub const CAPTURED_LIMIT: u32 = 262_144;

// How many bytes the head of a record has.
const HEAD: usize = 16;

/// What stands at the present place of a capture.
#[derive(Clone, Copy, Debug, PartialEq, Eq)]
pub enum Step {
    /// A whole record, which is now in the frame.
    Frame,
    /// So many bytes, at least one, that are no whole record. They are ignored: a capture tool that was stopped leaves them.
    Tail(u32),
    /// Nothing: the capture ends with a whole record, or has none.
    End,
}

/// A record that stands whole at the front of some bytes.
#[derive(Clone, Copy, Debug, PartialEq, Eq)]
pub struct WholeRecord {
    /// Seconds of the packet's time.
    pub seconds: u32,
    /// The rest of the time, in the capture's unit: microseconds or nanoseconds.
    pub fraction: u32,
    /// How many bytes the packet had on the wire.
    pub original: u32,
    /// How many bytes the record has: its header of 16, and those that were captured.
    pub len: usize,
}

// Where a record is read: in this order of bytes, behind so many others, at this offset.
#[derive(Clone, Copy)]
pub(crate) struct Place {
    pub(crate) order: Order,
    pub(crate) count: u32,
    pub(crate) offset: u64,
}

/// A capture whose global header was read and accepted.
#[derive(Debug, Drop)]
pub struct Capture {
    header: [u8; HEADER],
    order: Order,
    count: u32,
    offset: u64,
    is_live: bool,
}

impl Model for Capture {
    ghost Value = { CaptureState };

    ghost view = { λ c. record {
      header = c.header;
      order = c.order;
      count = c.count;
      offset = c.offset;
      is_live = c.is_live;
    } };

    ghost invariant = { λ c. (c.count ≤ 1048576) × (c.offset ≤ 24 + c.count * 262160) };
}

// Reads as many bytes as the source has left, at most `length` of them, and answers how many.
fn read_bytes<S: Source>(
    source: &mut S,
    bytes: &mut Vec<u8>,
    count: usize,
) -> Result<usize, NextError>
    ensures length { OnOk result (length bytes.new.items ≡ count) }
    ensures ok { IfOk result (λ n. Fills (S.left source.old) (S.left source.new) n bytes.new.items) }
    ensures part { result ≡ Err NextError.ReadFault
        → FillsPart (S.left source.old) (S.left source.new) bytes.new.items }
    ensures sized { result ≡ Err NextError.ReadFault → length bytes.new.items ≡ count }
    ensures ended { IfOk result (λ n. n < count → S.ended source.new) }
    ensures told { IsTold (S.left source.old) → IsTold (S.left source.new) }
    ensures from { Reads S.Source source.old source.new (IsErrOf result NextError.ReadFault) }
    ensures only { IfErr result (λ e. (e ≡ NextError.ReadFault) ⊎ (e ≡ NextError.NoMemory)) }
{
    bytes.resize(count, 0)?;
    Ok(fill(source, bytes)?)
}

// How many bytes of data the record at the front of these has, where it stands there whole and has not too many.
fn whole_data(order: Order, front: &[u8]) -> Option<usize>
    ensures within { IfSome result (λ count. 16 + count ≤ length front.now) }
    ensures bounded { IfSome result (λ count. count ≤ 262144) }
    ensures told { IfSome result (λ count. count ≡ number_in order 4 (drop 8 (take 16 front.now))) }
{
    if front.len() < HEAD {
        return None;
    }
    let captured = order.u32_at(&front[..HEAD], 8);
    if captured > CAPTURED_LIMIT || HEAD + captured as usize > front.len() {
        return None;
    }
    Some(captured as usize)
}

// What a head says of its packet and of the length of its record.
#[inline(always)]
fn read_head(order: Order, head: &[u8]) -> WholeRecord
    requires { length head.now ≡ 16 }
    ensures { Tells order head.now result }
{
    WholeRecord {
        seconds: order.u32_at(head, 0),
        fraction: order.u32_at(head, 4),
        original: order.u32_at(head, 12),
        len: HEAD + order.u32_at(head, 8) as usize,
    }
}

// The same. It looks at the order once, and not at each number.
#[inline(always)]
fn judge_head(order: Order, head: &[u8]) -> WholeRecord
    requires { length head.now ≡ 16 }
    ensures { Tells order head.now result }
{
    match order {
        Order::Big => read_head(Order::Big, head),
        Order::Little => read_head(Order::Little, head),
    }
}

// Reads the numbers in the frame's head.
fn read_numbers(order: Order, frame: &mut Frame)
    ensures { frame.new ≡ captured_by order frame.old.head frame.old.bytes }
{
    frame.seconds = order.u32_at(&frame.head, 0);
    frame.fraction = order.u32_at(&frame.head, 4);
    frame.original = order.u32_at(&frame.head, 12);
}

// Copies the head and the data at the front of these bytes into the frame.
fn copy_parts(front: &[u8], captured: usize, frame: &mut Frame) -> Result<(), AllocError>
    requires within { 16 + captured ≤ length front.now }
    ensures head { OnOk result (frame.new.head ≡ take 16 front.now) }
    ensures bytes { OnOk result (frame.new.bytes ≡ take captured (drop 16 front.now)) }
{
    let (head, rest) = front.split_at(HEAD);
    frame.bytes.clear();
    frame.bytes.extend_from_slice(&rest[..captured])?;
    frame.head.copy_from_slice(head);
    Ok(())
}

// Copies the record at the front of what the source lends into the frame, and passes over it. It answers whether it did:
// a record stands there whole, and one more is allowed.
fn take_lent<S: Source>(
    order: Order,
    count: u32,
    source: &mut S,
    frame: &mut Frame,
) -> Result<bool, AllocError>
    requires { count ≤ 1048576 }
    ensures few { IfOk result (λ took. OnTrue took (count < 1048576)) }
    ensures whole { IfOk result (λ took. OnTrue took (IsRecord order frame.new)) }
    ensures consumed { IfOk result (λ took. OnTrue took
        (Consumes (S.left source.old) (S.left source.new) (record_bytes frame.new))) }
    ensures stays { IfOk result (λ took. OnFalse took (S.left source.new ≡ S.left source.old)) }
    ensures refused { OnErr result (source.new ≡ source.old) }
    ensures outside { (S.faults source.new ≡ S.faults source.old) × (S.lasting source.new ≡ S.lasting source.old) }
{
    if count == RECORD_LIMIT {
        return Ok(false);
    }
    let front = source.lend();
    let Some(captured) = whole_data(order, front) else {
        return Ok(false);
    };
    copy_parts(front, captured, frame)?;
    if !source.pass(HEAD + captured) {
        return Ok(false);
    }
    read_numbers(order, frame);
    Ok(true)
}

// Reads the record at this place into the frame: its head and then its data.
fn read_parts<S: Source>(at: Place, source: &mut S, frame: &mut Frame) -> Result<Step, NextError>
    requires { at.count ≤ 1048576 }
    ensures gives { GivesAt at (S.left source.old) (S.left source.new) frame.new result }
    ensures told { StepTells S.Source at source.old source.new frame.new result }
{
    let filled = fill(source, &mut frame.head)?;
    if filled == 0 {
        return Ok(Step::End);
    }
    if filled < HEAD {
        return Ok(Step::Tail(filled as u32));
    }
    if at.count == RECORD_LIMIT {
        return Err(NextError::TooMany(at.offset));
    }
    let captured = at.order.u32_at(&frame.head, 8);
    if captured > CAPTURED_LIMIT {
        return Err(NextError::TooLong(at.offset));
    }
    let filled = read_bytes(source, &mut frame.bytes, captured as usize)?;
    if filled < frame.bytes.len() {
        return Ok(Step::Tail((HEAD + filled) as u32));
    }
    read_numbers(at.order, frame);
    Ok(Step::Frame)
}

// Reads the record at this place into the frame: at once where the source lends the whole of it, else by its parts.
fn read_record<S: Source>(at: Place, source: &mut S, frame: &mut Frame) -> Result<Step, NextError>
    requires { at.count ≤ 1048576 }
    ensures gives { GivesAt at (S.left source.old) (S.left source.new) frame.new result }
    ensures told { StepTells S.Source at source.old source.new frame.new result }
{
    if take_lent(at.order, at.count, source, frame)? {
        return Ok(Step::Frame);
    }
    read_parts(at, source, frame)
}

impl Capture {
    ghost use Rattle.std.specs.Prelude.{None};
    ghost use Rattle.pcap_source.specs.InPlace.{IsPassed, StopsWithin, TakesInPlace};
    ghost use Rattle.pcap_source.specs.Reading.{Moves, OnNoFrame, OpenGives, Opened};

    /// Reads the global header: at most 24 bytes. It takes no memory.
    pub fn open<S: Source>(source: &mut S) -> Result<Capture, OpenError>
        ensures gives { OpenGives (S.left source.old) (S.left source.new) result }
        ensures start { IfOk result Opened }
        ensures ended { (count : ℕ) → result ≡ Err (OpenError.ShortHeader count) → S.ended source.new }
        ensures cause { HasCauseOf (S.faults source.old) (S.faults source.new) (IsErrOf result OpenError.ReadFault) }
        ensures lasts { S.lasting source.new ≡ S.lasting source.old }
        ensures at_most { (read : List ℕ) × Consumes (S.left source.old) (S.left source.new) read
            × (length read ≤ 24) }
    {
        let mut header = [0; HEADER];
        let filled = fill(source, &mut header)?;
        if filled < HEADER {
            return Err(OpenError::ShortHeader(filled as u64));
        }
        Ok(Capture {
            order: judge_header(&header)?,
            header,
            count: 0,
            offset: HEADER as u64,
            is_live: true,
        })
    }

    /// Whether the next record stands whole among the bytes that the source has at hand: then `next` asks nothing outside.
    pub fn is_at_hand<S: Source>(&self, source: &S) -> bool
        ensures whole { IsTrue result → (bytes : List ℕ) → S.left source.now ≡ Some bytes
            → IsTrue (is_whole self.now.order bytes) }
    {
        let front = source.at_hand();
        if front.len() < HEAD {
            return false;
        }
        let captured = self.order.u32_at(&front[..HEAD], 8);
        captured <= CAPTURED_LIMIT && HEAD + captured as usize <= source.count_at_hand()
    }

    /// Reads the next record into the frame, whose memory it uses again. After any answer but `Step::Frame` the capture
    /// is no longer live, and the frame holds nothing that counts.
    #[inline(always)]
    pub fn next<S: Source>(&mut self, source: &mut S, frame: &mut Frame) -> Result<Step, NextError>
        requires live { IsTrue self.old.is_live }
        ensures gives { NextGives self.old self.new (S.left source.old) (S.left source.new) frame.new result }

        // An end is told only where the source has ended.
        ensures ended { IfOk result (λ step. step ≢ Step.Frame → S.ended source.new) }

        // Only a whole record leaves the capture live.
        ensures live { IsTrue self.new.is_live ↔ (result ≡ Ok Step.Frame) }
        ensures moved { result ≡ Ok Step.Frame → Moves self.old self.new frame.new }
        ensures stopped { OnNoFrame result (self.new ≡ record self.old { is_live = false }) }

        // A refusal tells where the record begins, also over a source that tells nothing.
        ensures refused { RefusesAt self.old result }

        // The frame holds what was read.
        ensures whole { result ≡ Ok Step.Frame → IsRecord self.old.order frame.new }
        ensures consumed { result ≡ Ok Step.Frame
            → Consumes (S.left source.old) (S.left source.new) (record_bytes frame.new) }

        ensures cause { HasCauseOf (S.faults source.old) (S.faults source.new) (IsErrOf result NextError.ReadFault) }
        ensures lasts { S.lasting source.new ≡ S.lasting source.old }
    {
        self.is_live = false;
        let at = Place {
            order: self.order,
            count: self.count,
            offset: self.offset,
        };
        let step = read_record(at, source, frame)?;
        if step == Step::Frame {
            self.count += 1;
            self.offset += (HEAD + frame.bytes.len()) as u64;
            self.is_live = true;
        }
        Ok(step)
    }

    /// Takes the record at the front of these bytes where it stands, if it stands there whole and may be read: then the
    /// capture stands behind it, as `next` leaves it. Nothing is copied, and the caller passes over these bytes of the
    /// source. `None` leaves the capture as it was, and says nothing of the bytes.
    #[inline(always)]
    pub fn next_in(&mut self, front: &[u8]) -> Option<WholeRecord>
        ensures taken { IfSome result (TakesInPlace self.old self.new front.now) }
        ensures stays { result ≡ None → self.new ≡ self.old }
    {
        if !self.is_live || self.count == RECORD_LIMIT || front.len() < HEAD {
            return None;
        }
        let record = judge_head(self.order, &front[..HEAD]);
        if record.len > HEAD + CAPTURED_LIMIT as usize || record.len > front.len() {
            return None;
        }
        self.count += 1;
        self.offset += record.len as u64;
        Some(record)
    }

    /// Passes over so many bytes of a source whose records `next_in` took: as the source does where it lends them, else by a
    /// read into the frame, which then holds nothing that counts.
    pub fn pass_over<S: Source>(
        source: &mut S,
        count: usize,
        frame: &mut Frame,
    ) -> Result<(), NextError>
        ensures passed { OnOk result (IsPassed (S.left source.old) (S.left source.new) count) }
        ensures cut { result ≡ Err NextError.ReadFault
            → StopsWithin (S.left source.old) (S.left source.new) count }
        ensures cause { HasCauseOf (S.faults source.old) (S.faults source.new) (IsErrOf result NextError.ReadFault) }
        ensures lasts { S.lasting source.new ≡ S.lasting source.old }
        ensures only { IfErr result (λ e. (e ≡ NextError.ReadFault) ⊎ (e ≡ NextError.NoMemory)) }
    {
        if source.pass(count) {
            return Ok(());
        }
        read_bytes(source, &mut frame.bytes, count)?;
        Ok(())
    }

    // The global header as it was read.
    pub(crate) fn header(&self) -> &[u8]
        ensures { result.now ≡ self.now.header }
    {
        &self.header
    }

    /// Ends the reading: the capture is no longer live.
    pub fn stop(&mut self)
        ensures { self.new ≡ record self.old { is_live = false } }
    {
        self.is_live = false;
    }

    /// Whether the next record may be read.
    pub fn is_live(&self) -> bool
        ensures { result ≡ self.now.is_live }
    {
        self.is_live
    }
}
