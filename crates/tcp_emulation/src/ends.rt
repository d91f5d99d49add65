//! The pair of ends of one connection, and its two steps.

ghost use Rattle.std.specs.Prelude.{◌≡◌};
ghost use Rattle.tcp_emulation.specs.States.{other};
ghost use Rattle.tcp_emulation.specs.Ends.{fresh_ends, end_at, end_sent, end_received, ends_after_send, ends_after_receive, sent_state, received_state, are_over, change_of};

use crate::segment::{Change, SegFacts, Side};
use crate::state::State;

/// One end: its state, and whether it has sent a SYN in this connection.
#[derive(Clone, Copy, Debug, PartialEq, Eq, Hash)]
pub struct End {
    pub state: State,
    pub has_sent_syn: bool,
}

/// The two ends of one connection.
#[derive(Clone, Copy, Debug, PartialEq, Eq, Hash)]
pub struct Ends {
    pub client: End,
    pub server: End,
}

impl Ends {
    /// The ends before the first segment: the client is CLOSED and the server is LISTEN.
    pub fn new() -> Self
        ensures { result ≡ fresh_ends }
    {
        Ends {
            client: End {
                state: State::Closed,
                has_sent_syn: false,
            },
            server: End {
                state: State::Listen,
                has_sent_syn: false,
            },
        }
    }

    /// The state of one end.
    pub fn state(&self, side: Side) -> State
        ensures { result ≡ (end_at side self.now).state }
    {
        match side {
            Side::Client => self.client.state,
            Side::Server => self.server.state,
        }
    }
}

impl End {
    // The state after this end sent the segment: after an RST no other rule is read.
    fn state_after_send(self, f: &SegFacts) -> State
        ensures { result ≡ sent_state f.now self.has_sent_syn self.state }
    {
        if f.rst {
            return State::Closed;
        }
        let mut state = self.state;
        if f.syn && !f.ack && !self.has_sent_syn {
            state = state.on_opening_syn_sent();
        }
        if f.syn && f.ack {
            state = state.on_syn_ack_sent();
        }
        if f.fin {
            state = state.on_fin_sent();
        }
        state
    }

    // The state after this end received the segment: an RST is read by its own rule alone.
    fn state_after_receive(self, f: &SegFacts) -> State
        ensures { result ≡ received_state f.now self.state }
    {
        if f.rst {
            return if f.in_window {
                State::Closed
            } else {
                self.state
            };
        }
        let mut state = self.state;
        if f.syn && !f.ack {
            state = state.on_syn_received();
        }
        if f.syn && f.ack && f.acks_syn {
            state = state.on_syn_ack_received();
        }
        if f.ack && f.acks_syn {
            state = state.on_syn_acknowledged();
        }
        if f.ack && f.acks_fin {
            state = state.on_fin_acknowledged();
        }
        if f.fin_reached {
            state = state.on_fin_reached();
        }
        state
    }

    fn send(&mut self, f: &SegFacts) -> Change
        ensures end { self.new ≡ end_sent f.now self.old }
        ensures change { result ≡ change_of self.old self.new }
    {
        let old = self.state;
        self.state = self.state_after_send(f);
        self.has_sent_syn = self.has_sent_syn || f.syn;
        Change {
            old,
            new: self.state,
        }
    }

    fn receive(&mut self, f: &SegFacts) -> Change
        ensures end { self.new ≡ end_received f.now self.old }
        ensures change { result ≡ change_of self.old self.new }
    {
        let old = self.state;
        self.state = self.state_after_receive(f);
        Change {
            old,
            new: self.state,
        }
    }
}

/// Steps the sender of a segment; `side` is the sender. A SYN counts as sent here, also where the
/// segment is dropped later on. The four facts about the streams aren't read.
pub fn send_step(ends: &mut Ends, side: Side, f: &SegFacts) -> Change
    ensures ends { ends.new ≡ ends_after_send side f.now ends.old }
    ensures stepped { end_at side ends.new ≡ end_sent f.now (end_at side ends.old) }
    ensures peer { end_at (other side) ends.new ≡ end_at (other side) ends.old }
    ensures change { result ≡ change_of (end_at side ends.old) (end_at side ends.new) }
{
    match side {
        Side::Client => ends.client.send(f),
        Side::Server => ends.server.send(f),
    }
}

/// Steps the receiver of a segment; `side` is the receiver.
pub fn recv_step(ends: &mut Ends, side: Side, f: &SegFacts) -> Change
    ensures ends { ends.new ≡ ends_after_receive side f.now ends.old }
    ensures stepped { end_at side ends.new ≡ end_received f.now (end_at side ends.old) }
    ensures peer { end_at (other side) ends.new ≡ end_at (other side) ends.old }
    ensures change { result ≡ change_of (end_at side ends.old) (end_at side ends.new) }
{
    match side {
        Side::Client => ends.client.receive(f),
        Side::Server => ends.server.receive(f),
    }
}

/// Whether the connection is over: each end is in CLOSED or TIME_WAIT.
pub fn is_over(ends: &Ends) -> bool
    ensures { result ≡ are_over ends.now }
{
    ends.client.state.is_done() && ends.server.state.is_done()
}
