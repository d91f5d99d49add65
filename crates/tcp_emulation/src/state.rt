//! The states of an end, and the lines of the tables: what each rule makes of a state.
//!
//! The rules stand in the order in which they are applied. A state that a rule doesn't list stays.

ghost use Rattle.std.specs.Prelude.{◌≡◌, ◌≤◌};
ghost use Rattle.tcp_emulation.specs.States.{number_of, is_done, opening_syn_sent, syn_ack_sent, fin_sent, syn_received, syn_ack_received, syn_acknowledged, fin_acknowledged, fin_reached};

/// The state of an end, in the order of RFC 9293, section 3.3.2, with CLOSED first.
#[derive(Clone, Copy, Debug, PartialEq, Eq, Hash)]
pub enum State {
    Closed,
    Listen,
    SynSent,
    SynRcvd,
    Established,
    FinWait1,
    FinWait2,
    CloseWait,
    Closing,
    LastAck,
    TimeWait,
}

impl State {
    /// The state's number in events and reports, from 0 for CLOSED to 10 for TIME_WAIT.
    pub const fn number(self) -> u64
        ensures number { result ≡ number_of self }
        ensures range { result ≤ 10 }
    {
        match self {
            State::Closed => 0,
            State::Listen => 1,
            State::SynSent => 2,
            State::SynRcvd => 3,
            State::Established => 4,
            State::FinWait1 => 5,
            State::FinWait2 => 6,
            State::CloseWait => 7,
            State::Closing => 8,
            State::LastAck => 9,
            State::TimeWait => 10,
        }
    }

    /// Active open: this end sends its first SYN, without ACK.
    pub(crate) fn on_opening_syn_sent(self) -> Self
        ensures { result ≡ opening_syn_sent self }
    {
        match self {
            State::Closed => State::SynSent,
            _ => self,
        }
    }

    /// Passive open: this end answers with SYN and ACK.
    pub(crate) fn on_syn_ack_sent(self) -> Self
        ensures { result ≡ syn_ack_sent self }
    {
        match self {
            State::Listen => State::SynRcvd,
            _ => self,
        }
    }

    /// Close: this end sends its FIN.
    pub(crate) fn on_fin_sent(self) -> Self
        ensures { result ≡ fin_sent self }
    {
        match self {
            State::SynRcvd | State::Established => State::FinWait1,
            State::CloseWait => State::LastAck,
            _ => self,
        }
    }

    /// A listening end receives a SYN without ACK.
    pub(crate) fn on_syn_received(self) -> Self
        ensures { result ≡ syn_received self }
    {
        match self {
            State::Listen => State::SynRcvd,
            _ => self,
        }
    }

    /// The answer to an active open arrives: SYN, and ACK of this end's SYN.
    pub(crate) fn on_syn_ack_received(self) -> Self
        ensures { result ≡ syn_ack_received self }
    {
        match self {
            State::SynSent => State::Established,
            _ => self,
        }
    }

    /// The handshake's last ACK arrives: ACK of this end's SYN.
    pub(crate) fn on_syn_acknowledged(self) -> Self
        ensures { result ≡ syn_acknowledged self }
    {
        match self {
            State::SynRcvd => State::Established,
            _ => self,
        }
    }

    /// The peer acknowledges this end's FIN.
    pub(crate) fn on_fin_acknowledged(self) -> Self
        ensures { result ≡ fin_acknowledged self }
    {
        match self {
            State::FinWait1 => State::FinWait2,
            State::Closing => State::TimeWait,
            State::LastAck => State::Closed,
            _ => self,
        }
    }

    /// The peer's FIN is reached: every byte before it is there.
    pub(crate) fn on_fin_reached(self) -> Self
        ensures { result ≡ fin_reached self }
    {
        match self {
            State::SynRcvd | State::Established => State::CloseWait,
            State::FinWait1 => State::Closing,
            State::FinWait2 => State::TimeWait,
            _ => self,
        }
    }

    /// Whether an end in this state has nothing more to do: CLOSED or TIME_WAIT.
    pub(crate) fn is_done(self) -> bool
        ensures { result ≡ is_done self }
    {
        matches!(self, State::Closed | State::TimeWait)
    }
}
