//! The socket of one connection: both ends with their shifts, both directions, the last packet.

ghost use Rattle.std.specs.Prelude.{ℕ, ◌≡◌, ◌+◌, ◌^◌, ◌≤◌, ◌&&◌, not, nat_lt, length, OnOk, OnErr, IfOk, IsTrue, false};
ghost use Rattle.packet_views.specs.Flags.{has_syn, has_fin, has_rst};
ghost use Rattle.std.specs.Option.{ForSome};
ghost use Rattle.flow_socket.specs.Emulation.{facts_of, sent_facts, fault_bits};

use crate::answers::{Got, Peeked, Sent};
use crate::direction::{KeptDirection, Taken};
use crate::sequence::Acks;
use crate::shifts::{Shifts, makes_offer};
use packet_views::Head;
use reassembly::{Pieces, Policy, Stream};
use std::alloc::{AllocError, Global};
use std::marker::Model;
use tcp_emulation::{Change, Ends, SegFacts, Side, State};

/// The monitoring socket of one connection. It stands for the emulated connection of the
/// definitions: its ends and their shifts, its origins, offers, marks and kept bytes, and the last
/// packet that was sent.
#[derive(Drop)]
pub struct FlowSocket {
    ends: Ends,
    shifts: Shifts,
    client: KeptDirection,
    server: KeptDirection,
    last: Option<Head>,
    rbuf: u32,
    policy: Policy,
}

impl Model for FlowSocket {
    ghost use Rattle.std.specs.Prelude.{◌≡◌, ◌≤◌, ◌+◌, ◌^◌};
    ghost use Rattle.flow_socket.specs.View.{SocketView};
    ghost use Rattle.flow_socket.specs.Windows.{AreBounded};

    ghost Value = { SocketView };

    ghost invariant = { λ s. (s.client.stream.rbuf ≡ s.rbuf) × (s.server.stream.rbuf ≡ s.rbuf)
        × (s.rbuf ≤ 1048576) × (s.client.stream.next ≤ 2 ^ 62 + 2 ^ 20) × (s.server.stream.next ≤ 2 ^ 62 + 2 ^ 20)
        × AreBounded s.shifts };

    ghost view = { λ s. record {
      ends = s.ends;
      shifts = s.shifts;
      client = s.client;
      server = s.server;
      last = s.last;
      rbuf = s.rbuf;
      policy = s.policy;
    } };
}

impl FlowSocket {
    ghost use Rattle.std.specs.Prelude.{drop, ◌++◌};
    ghost use Rattle.tcp_emulation.specs.declared.segment.Side.{Side};
    ghost use Rattle.tcp_emulation.specs.States.{other};
    ghost use Rattle.tcp_emulation.specs.Ends.{end_at, ends_after_receive, change_of, are_over};
    ghost use Rattle.flow_socket.specs.Direction.{acks_syn, acks_fin, is_finished, placed_in, is_fin_refused, is_in_window, offered_in};
    ghost use Rattle.flow_socket.specs.Emulation.{fresh_emulation, stepped, with_offer, sent, sent_answer, received, got_of, direction_of, with_direction, taken_by};
    ghost use Rattle.std.specs.Prelude.{map};
    ghost use Rattle.flow_socket.specs.Peek.{peeked, bytes_peeked, after_peek, runs_at, pieces_at};
    ghost use Rattle.reassembly.specs.Receiver.{kept};
    ghost use Rattle.reassembly.specs.Kept.{positions_in, AreWhole};
    ghost use Rattle.reassembly.specs.View.{StandsFor};
    ghost use Rattle.flow_socket.specs.Quiet.{IsQuiet};
    ghost use Rattle.flow_socket.specs.View.{SocketStandsFor, ForEmulation, SocketTells, SocketStandsAfter, KeepsStreams, KeepsDirections, ComesFrom, view_at, next_at};

    /// The socket of a connection before its first packet. Each receiver's buffer has `rbuf` bytes,
    /// from 1 to 1,048,576; `policy` says which byte of an overlap stays.
    pub fn new(alloc: Global, rbuf: u32, policy: Policy) -> FlowSocket
        requires low { 1 ≤ rbuf }
        requires high { rbuf ≤ 1048576 }
        ensures { SocketStandsFor result (fresh_emulation rbuf policy) }
    {
        FlowSocket {
            ends: Ends::new(),
            shifts: Shifts::new(),
            client: KeptDirection::new(alloc, rbuf),
            server: KeptDirection::new(alloc, rbuf),
            last: None,
            rbuf,
            policy,
        }
    }

    /// Makes phase S of a packet with the window scale `scale`, at most 14: the step of its sender,
    /// `from`, and the offer of its window (RFC 9293, section 3.8.6). The scale counts in the first
    /// packet with SYN that `from` sends.
    #[tactic(auto, unfolding(crate::specs::Emulation::sent, crate::specs::Emulation::sent_answer))]
    #[inline(always)]
    pub fn send(&mut self, from: Side, h: &Head, scale: Option<u8>) -> Sent
        requires scale { ForSome scale (λ shift. shift ≤ 14) }
        ensures stands { SocketStandsAfter self.old self.new (sent from h.now scale) }
        ensures answer { SocketTells self.old result (sent_answer from h.now) }
        ensures client { self.new.client.stream ≡ self.old.client.stream }
        ensures server { self.new.server.stream ≡ self.old.server.stream }
        ensures rbuf { self.new.rbuf ≡ self.old.rbuf }
    {
        let change = self.step_sender(from, h, scale);
        self.offer(from, h);
        Sent {
            change,
            next: self.stream(from).next(),
        }
    }

    // Steps the end that sends a packet. The shifts are read by the ends from before the step. Without SYN, FIN and RST
    // neither of them changes.
    #[inline(always)]
    fn step_sender(&mut self, from: Side, h: &Head, scale: Option<u8>) -> Change
        requires scale { ForSome scale (λ shift. shift ≤ 14) }
        ensures stands { SocketStandsAfter self.old self.new (stepped from h.now scale) }
        ensures change { SocketTells self.old result
            (λ e. change_of (end_at from e.ends) (end_at from (stepped from h.now scale e).ends)) }
        ensures directions { KeepsDirections self.old self.new }
    {
        self.last = Some(*h);
        if is_plain(h) {
            let state = self.ends.state(from);
            return Change {
                old: state,
                new: state,
            };
        }
        self.shifts = self.shifts.after(from, h, scale, &self.ends);
        tcp_emulation::send_step(&mut self.ends, from, &sent_facts(h))
    }

    // Offers a packet's window on the stream that its sender receives, after the step.
    #[inline(always)]
    fn offer(&mut self, from: Side, h: &Head)
        ensures stands { SocketStandsAfter self.old self.new (with_offer from h.now) }
        ensures streams { KeepsStreams self.old self.new }
    {
        if makes_offer(h, &self.ends) {
            let size = self.shifts.window(from, h);
            self.note_offer(from.other(), h.ack, size);
        }
    }

    // Notes an offer on the stream that `of` sends.
    fn note_offer(&mut self, of: Side, ack: u32, size: u32)
        ensures stands { SocketStandsAfter self.old self.new
            (λ e. with_direction of (offered_in ack size (direction_of of e)) e) }
        ensures streams { KeepsStreams self.old self.new }
    {
        match of {
            Side::Client => self.client.offer(ack, size),
            Side::Server => self.server.offer(ack, size),
        }
    }

    /// Makes phase R of a packet that `from` sent: the step of its receiver. The payload has `h.len`
    /// bytes. Nothing changes where memory is refused.
    #[inline(always)]
    pub fn receive(&mut self, from: Side, h: &Head, payload: &[u8]) -> Result<Got, AllocError>
        requires len { h.now.len ≡ length payload.now }
        requires bytes { length payload.now ≤ 65535 }
        requires client { next_at Side.Client self.old ≤ 2 ^ 62 }
        requires server { next_at Side.Server self.old ≤ 2 ^ 62 }
        ensures err { OnErr result (self.new ≡ self.old) }
        ensures stands { OnOk result (SocketStandsAfter self.old self.new (received from h.now payload.now)) }
        ensures answer { IfOk result (λ got. SocketTells self.old got (got_of from h.now payload.now)) }
        ensures rise { OnOk result (next_at from self.new ≤ next_at from self.old + self.old.rbuf) }
        ensures peer { OnOk result (view_at (other from) self.new ≡ view_at (other from) self.old) }
        ensures rbuf { self.new.rbuf ≡ self.old.rbuf }
    {
        if self.is_quiet(from, h) {
            return self.receive_quiet(from, h, payload);
        }
        let acks = self.acks(from.other(), h.ack);
        let before = self.stream(from).next();
        let taken = self.take(from, h, payload)?;
        let facts = facts_of(h, acks, taken.in_window, self.is_finished(from));
        let change = self.step_receiver(from.other(), &facts);
        let next = self.stream(from).next();
        Ok(Got {
            change,
            placed: taken.placed,
            fault: fault_of(h, &taken),
            rose: before < next,
            next,
            over: self.is_over(),
        })
    }

    // Whether a packet changes no end: it has none of SYN, FIN and RST, its receiver is ESTABLISHED, and no FIN of its
    // sender is noted.
    #[inline(always)]
    fn is_quiet(&self, from: Side, h: &Head) -> bool
        ensures { IsTrue result → ForEmulation self.now (IsQuiet from h.now) }
    {
        is_plain(h)
            && self.ends.state(from.other()) == State::Established
            && self.stream(from).fin().is_none()
    }

    // Phase R of such a packet: its direction takes it, and that is all.
    #[inline(always)]
    fn receive_quiet(&mut self, from: Side, h: &Head, payload: &[u8]) -> Result<Got, AllocError>
        requires quiet { ForEmulation self.old (IsQuiet from h.now) }
        requires bytes { length payload.now ≤ 65535 }
        requires next { next_at from self.old ≤ 2 ^ 62 }
        ensures sent { ComesFrom from self.old self.new result }
        ensures stands { OnOk result (SocketStandsAfter self.old self.new (received from h.now payload.now)) }
        ensures answer { IfOk result (λ got. SocketTells self.old got (got_of from h.now payload.now)) }
    {
        let before = self.stream(from).next();
        let taken = self.take(from, h, payload)?;
        let next = self.stream(from).next();
        Ok(Got {
            change: Change {
                old: State::Established,
                new: State::Established,
            },
            placed: taken.placed,
            fault: fault_over(&taken),
            rose: before < next,
            next,
            over: false,
        })
    }

    // Steps the end that receives a packet.
    #[inline(always)]
    fn step_receiver(&mut self, of: Side, facts: &SegFacts) -> Change
        ensures stands { SocketStandsAfter self.old self.new
            (λ e. record e { ends = ends_after_receive of facts.now e.ends }) }
        ensures change { SocketTells self.old result
            (λ e. change_of (end_at of e.ends) (end_at of (ends_after_receive of facts.now e.ends))) }
        ensures directions { KeepsDirections self.old self.new }
    {
        tcp_emulation::recv_step(&mut self.ends, of, facts)
    }

    // Which of the SYN and the FIN of `of` a number acknowledges.
    #[inline(always)]
    fn acks(&self, of: Side, ack: u32) -> Acks
        requires next { next_at of self.now ≤ 2 ^ 62 }
        ensures syn { SocketTells self.now result.syn (λ e. acks_syn ack (direction_of of e)) }
        ensures fin { SocketTells self.now result.fin (λ e. acks_fin ack (direction_of of e)) }
    {
        match of {
            Side::Client => self.client.acks(ack),
            Side::Server => self.server.acks(ack),
        }
    }

    // Whether the FIN of `from` is reached.
    fn is_finished(&self, from: Side) -> bool
        ensures { SocketTells self.now result (λ e. is_finished (direction_of from e)) }
    {
        match from {
            Side::Client => self.client.is_finished(),
            Side::Server => self.server.is_finished(),
        }
    }

    // The packet's direction takes it.
    #[inline(always)]
    fn take(&mut self, from: Side, h: &Head, payload: &[u8]) -> Result<Taken, AllocError>
        requires bytes { length payload.now ≤ 65535 }
        requires next { next_at from self.old ≤ 2 ^ 62 }
        ensures sent { ComesFrom from self.old self.new result }
        ensures stands { OnOk result (SocketStandsAfter self.old self.new
            (λ e. with_direction from (taken_by from h.now payload.now e) e)) }
        ensures placed { IfOk result (λ taken. SocketTells self.old taken.placed
            (λ e. placed_in e.rbuf h.now payload.now (direction_of from e))) }
        ensures refused { IfOk result (λ taken. SocketTells self.old taken.fin_refused
            (λ e. is_fin_refused e.rbuf e.policy h.now payload.now (direction_of from e))) }
        ensures window { IfOk result (λ taken. SocketTells self.old taken.in_window
            (λ e. is_in_window e.rbuf h.now (direction_of from e))) }
    {
        match from {
            Side::Client => self.client.take(h, payload, self.rbuf, self.policy),
            Side::Server => self.server.take(h, payload, self.rbuf, self.policy),
        }
    }

    /// Reads on from the mark of the stream that `from` sends, at most as many bytes as the buffer
    /// has and all below `next`, and moves that mark behind them. The other mark stays.
    #[tactic(auto, unfolding(crate::specs::Peek::peeked, crate::specs::Peek::bytes_peeked, crate::specs::Peek::after_peek))]
    pub fn peek(&mut self, from: Side, buf: &mut [u8]) -> Peeked
        ensures stands { SocketStandsAfter self.old self.new (after_peek from (length buf.old)) }
        ensures answer { SocketTells self.old result (peeked from (length buf.old)) }
        ensures few { result.len ≤ length buf.old }
        ensures bytes { SocketTells self.old buf.new
            (λ e. bytes_peeked from (length buf.old) e ++ drop result.len buf.old) }
        ensures rbuf { self.new.rbuf ≡ self.old.rbuf }
        ensures stream { (view_at from self.new).stream ≡ (view_at from self.old).stream }
        ensures peer { view_at (other from) self.new ≡ view_at (other from) self.old }
    {
        match from {
            Side::Client => self.client.peek(buf, self.rbuf),
            Side::Server => self.server.peek(buf, self.rbuf),
        }
    }

    /// The longest runs of positions that the receiver of the stream that `from` sends keeps, among
    /// the `len` from `off` on, also above `next`: each by its place and length. It moves no mark;
    /// `Stream::read_at` gives the bytes of a run, as many as it has positions.
    #[tactic(auto, unfolding(crate::specs::Peek::runs_at, crate::specs::Peek::pieces_at))]
    pub fn ppeek(&self, from: Side, off: u64, len: u32) -> Pieces<'_>
        ensures runs { SocketTells self.now result (runs_at from off len) }
        ensures few { positions_in result ≤ len }
        ensures whole { ForEmulation self.now
            (λ e. AreWhole (kept (direction_of from e).receiver.cells e.rbuf) result) }
        ensures pieces { ForEmulation self.now
            (λ e. map (λ piece. (piece.0, length piece.1)) (pieces_at from off len e) ≡ result) }
    {
        self.stream(from).pieces(off, len)
    }

    /// The stream of the bytes that `from` sends, as the other end accepts them.
    pub fn stream(&self, from: Side) -> &Stream
        ensures known { result.now ≡ (view_at from self.now).stream }
        ensures stands { ForEmulation self.now (λ e. StandsFor result.now (direction_of from e).receiver) }
        ensures rbuf { SocketTells self.now result.now.rbuf (λ e. e.rbuf) }
    {
        match from {
            Side::Client => &self.client.stream,
            Side::Server => &self.server.stream,
        }
    }

    /// Whether the connection is over: each end is in CLOSED or TIME_WAIT.
    pub fn is_over(&self) -> bool
        ensures { SocketTells self.now result (λ e. are_over e.ends) }
    {
        tcp_emulation::is_over(&self.ends)
    }

    /// The header of the packet that was sent last, None exactly before the first.
    pub fn last(&self) -> Option<Head>
        ensures { SocketTells self.now result (λ e. e.last) }
    {
        self.last
    }
}

// Whether a packet has none of SYN, FIN and RST.
#[inline(always)]
fn is_plain(h: &Head) -> bool
    ensures syn { IsTrue result → has_syn h.now ≡ false }
    ensures fin { IsTrue result → has_fin h.now ≡ false }
    ensures rst { IsTrue result → has_rst h.now ≡ false }
{
    !h.has_syn() && !h.has_fin() && !h.has_rst()
}

// The sum of the faults of a packet: bytes that weren't accepted, an RST out of the window, a
// FIN that was refused.
fn fault_of(h: &Head, taken: &Taken) -> u8
    ensures { result
        ≡ fault_bits (nat_lt 0 taken.now.placed.over) (has_rst h.now && not taken.now.in_window) taken.now.fin_refused }
{
    let is_reset_out = h.has_rst() && !taken.in_window;
    u8::from(taken.placed.over > 0) + 2 * u8::from(is_reset_out) + 4 * u8::from(taken.fin_refused)
}

// The fault of bytes that weren't accepted, alone.
#[inline(always)]
fn fault_over(taken: &Taken) -> u8
    ensures { result ≡ fault_bits (nat_lt 0 taken.now.placed.over) false false }
{
    u8::from(taken.placed.over > 0)
}

// What a step of an end reads of a packet.
fn facts_of(h: &Head, acks: Acks, in_window: bool, fin_reached: bool) -> SegFacts
    ensures { result ≡ facts_of h.now acks.syn acks.fin in_window fin_reached }
{
    SegFacts {
        syn: h.has_syn(),
        ack: h.has_ack(),
        fin: h.has_fin(),
        rst: h.has_rst(),
        acks_syn: acks.syn,
        acks_fin: acks.fin,
        in_window,
        fin_reached,
    }
}

// The sender's step reads the flags alone.
fn sent_facts(h: &Head) -> SegFacts
    ensures { result ≡ sent_facts h.now }
{
    let none = Acks {
        syn: false,
        fin: false,
    };
    facts_of(h, none, false, false)
}
