//! One direction of a connection as it is kept: where its positions begin, its stream, its
//! receiver's offer, its mark.

ghost use Rattle.std.specs.Prelude.{ℕ, ◌≡◌, ◌+◌, ◌^◌, ◌≤◌, ◌<◌, length, Option, Some, None, OnOk, OnErr, IfOk};

use crate::answers::{Origin, Peeked};
use crate::segment::take_unless_reset;
use crate::sequence::{Acks, acks_of, distance, first_number, origin_from, position};
use packet_views::Head;
use reassembly::{Placed, Policy, Stream, greatest_offer, wide};
use std::alloc::{AllocError, Global};
use std::marker::Model;

/// What is kept of one direction. Contracts see its origin, its stream, its receiver's greatest offer
/// and its mark.
#[derive(Drop)]
pub(crate) struct KeptDirection {
    origin: Option<Origin>,
    pub(crate) stream: Stream,
    offer: Option<u64>,
    mark: u64,
}

impl Model for KeptDirection {
    ghost use Rattle.flow_socket.specs.View.{DirectionView};

    ghost Value = { DirectionView };

    ghost view = { λ k. record { origin = k.origin; stream = k.stream; offer = k.offer; mark = k.mark } };
}

/// How a packet was judged in its direction.
#[derive(Clone, Copy)]
pub(crate) struct Taken {
    pub(crate) placed: Placed,
    pub(crate) fin_refused: bool,
    pub(crate) in_window: bool,
}

impl KeptDirection {
    ghost use Rattle.flow_socket.specs.Segment.{RisesByBuffer};
    ghost use Rattle.flow_socket.specs.View.{DirectionStandsFor, DirectionTells, DirectionStandsAfter};
    ghost use Rattle.flow_socket.specs.Direction.{untouched, direction_after, placed_in, is_fin_refused, is_in_window, is_finished, acks_syn, acks_fin, offered_in};

    /// A direction from which nothing was received.
    pub(crate) fn new(alloc: Global, rbuf: u32) -> KeptDirection
        requires low { 1 ≤ rbuf }
        requires high { rbuf ≤ 1048576 }
        ensures stands { DirectionStandsFor rbuf result untouched }
        ensures next { result.stream.next ≡ 0 }
    {
        KeptDirection {
            origin: None,
            stream: Stream::new(alloc, rbuf),
            offer: None,
            mark: 0,
        }
    }

    /// Which of the SYN and the FIN of this direction's sender a number acknowledges.
    pub(crate) fn acks(&self, ack: u32) -> Acks
        requires next { self.now.stream.next ≤ 2 ^ 62 }
        ensures syn { (rbuf : ℕ) → DirectionTells rbuf self.now result.syn (acks_syn ack) }
        ensures fin { (rbuf : ℕ) → DirectionTells rbuf self.now result.fin (acks_fin ack) }
    {
        acks_of(ack, self.stream.next(), self.origin, self.stream.fin())
    }

    /// Whether the FIN of this direction's sender is reached.
    pub(crate) fn is_finished(&self) -> bool
        ensures { (rbuf : ℕ) → DirectionTells rbuf self.now result is_finished }
    {
        self.stream.fin() == Some(self.stream.next())
    }

    /// Notes an offer of this direction's receiver: a window of `size` bytes beside an acknowledgement.
    /// Before the first packet has set the origin it is lost.
    #[tactic(auto, unfolding(crate::specs::Direction::offered_in))]
    pub(crate) fn offer(&mut self, ack: u32, size: u32)
        requires next { self.old.stream.next ≤ 2 ^ 62 + 2 ^ 20 }
        ensures stream { self.new.stream ≡ self.old.stream }
        ensures stands { (rbuf : ℕ) → DirectionStandsAfter rbuf self.old self.new (offered_in ack size) }
    {
        let Some(origin) = self.origin else {
            return;
        };
        let position = position(self.stream.next(), origin.irs, ack);
        self.offer = Some(greatest_offer(self.offer, position, size));
    }

    /// Takes a packet: its payload and its FIN, unless it has RST. The first packet sets the
    /// origin. The receive window is that from before the packet. Nothing changes where memory is
    /// refused.
    #[inline(always)]
    pub(crate) fn take(
        &mut self,
        h: &Head,
        payload: &[u8],
        rbuf: u32,
        policy: Policy,
    ) -> Result<Taken, AllocError>
        requires bytes { length payload.now ≤ 65535 }
        requires next { self.old.stream.next ≤ 2 ^ 62 }
        requires rbuf { rbuf ≡ self.old.stream.rbuf }
        ensures err { OnErr result (self.new ≡ self.old) }
        ensures stream { RisesByBuffer self.old.stream self.new.stream result }
        ensures stands { OnOk result (DirectionStandsAfter rbuf self.old self.new
            (direction_after rbuf policy h.now payload.now)) }
        ensures placed { IfOk result (λ taken. DirectionTells rbuf self.old taken.placed
            (placed_in rbuf h.now payload.now)) }
        ensures refused { IfOk result (λ taken. DirectionTells rbuf self.old taken.fin_refused
            (is_fin_refused rbuf policy h.now payload.now)) }
        ensures window { IfOk result (λ taken. DirectionTells rbuf self.old taken.in_window
            (is_in_window rbuf h.now)) }
    {
        let origin = self.origin.unwrap_or(origin_from(h));
        let next = self.stream.next();
        let distance = distance(next, origin.irs, first_number(h));
        let wide = wide(next, self.offer, rbuf);
        let judged = take_unless_reset(&mut self.stream, h, distance, payload, wide, policy)?;
        self.origin = Some(origin);
        Ok(Taken {
            placed: judged.placed,
            fin_refused: judged.fin_refused,
            // At `next` it is in the window even where that is closed.
            in_window: 0 <= distance && distance < i64::from(wide.max(1)),
        })
    }
}

impl KeptDirection {
    ghost use Rattle.std.specs.Prelude.{drop, ◌++◌};
    ghost use Rattle.flow_socket.specs.View.{DirectionTells, DirectionStandsAfter};
    ghost use Rattle.flow_socket.specs.Peek.{peeked_in, peek_bytes, marked};

    /// Reads on from the mark, at most as many bytes as the buffer has, and moves the mark behind them.
    #[tactic(auto, using(crate::proofs::Peeking::low_near, crate::proofs::Peeking::read_within, crate::proofs::Peeking::rest_after, std::proofs::lemmas::Grind::common_steps))]
    pub(crate) fn peek(&mut self, buf: &mut [u8], rbuf: u32) -> Peeked
        ensures few { result.len ≤ length buf.old }
        ensures stream { self.new.stream ≡ self.old.stream }
        ensures stands { DirectionStandsAfter rbuf self.old self.new (marked rbuf (length buf.old)) }
        ensures answer { DirectionTells rbuf self.old result (peeked_in rbuf (length buf.old)) }
        ensures bytes { DirectionTells rbuf self.old buf.new
            (λ d. peek_bytes rbuf (length buf.old) d ++ drop result.len buf.old) }
    {
        let at = self.mark.max(self.stream.low());
        let missed = at - self.mark;
        // At most `rbuf` bytes below `next` are kept.
        let unread = self.stream.next().saturating_sub(at).min(u64::from(rbuf));
        let wanted = unread.min(buf.len() as u64) as usize;
        let len = self.stream.read_at(at, &mut buf[..wanted]).min(wanted);
        self.mark = at + len as u64;
        Peeked {
            at,
            len: len as u32,
            missed,
        }
    }
}
