//! What a step reads of a segment, and what it answers.

ghost use Rattle.std.specs.Prelude.{◌≡◌};
ghost use Rattle.tcp_emulation.specs.States.{other};

use crate::state::State;

/// One of the two ends of a connection.
#[derive(Clone, Copy, Debug, PartialEq, Eq, Hash)]
pub enum Side {
    /// The end that sent the opening SYN.
    Client,
    Server,
}

impl Side {
    /// The peer of this end.
    pub fn other(self) -> Side
        ensures { result ≡ other self }
    {
        match self {
            Side::Client => Side::Server,
            Side::Server => Side::Client,
        }
    }
}

/// What the tables read of a segment: four flags (RFC 9293, section 3.1), and four facts about
/// the streams, which only the receiver's step reads.
#[derive(Clone, Copy, Debug, PartialEq, Eq, Hash)]
pub struct SegFacts {
    pub syn: bool,
    pub ack: bool,
    pub fin: bool,
    pub rst: bool,
    /// The acknowledgement number covers the receiver's SYN.
    pub acks_syn: bool,
    /// The acknowledgement number covers the receiver's FIN.
    pub acks_fin: bool,
    /// The segment starts in the receiver's window. Read for an RST alone.
    pub in_window: bool,
    /// After this segment the receiver has every byte of the sender's, and its FIN.
    pub fin_reached: bool,
}

/// The state of the stepped end before and after a step.
#[derive(Clone, Copy, Debug, PartialEq, Eq, Hash)]
pub struct Change {
    pub old: State,
    pub new: State,
}
