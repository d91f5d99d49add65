//! The steps of a connection: who sends what.

ghost use Rattle.std.specs.Prelude.{◌≡◌, ℕ, ◌≤◌};
ghost use Rattle.capture_maker.specs.Table.{in_client, in_server, step_segment};

// Flags of the TCP header.
const SYN: u8 = 0x02;

const SYN_ACK: u8 = 0x12;

const ACK: u8 = 0x10;

const PSH_ACK: u8 = 0x18;

const FIN_ACK: u8 = 0x11;

/// Who sends a packet.
#[derive(Clone, Copy)]
pub enum Sender {
    /// The end that opens the connection.
    Client,
    Server,
}

/// The ten steps of a connection, in order.
#[derive(Clone, Copy)]
pub enum Step {
    /// The client's SYN.
    Syn,
    /// The server's SYN with ACK.
    SynAck,
    /// The client's acknowledgement, which opens the connection.
    Opened,
    /// The client's bytes.
    Request,
    /// The second half of the server's bytes, which comes before the first.
    LateHalf,
    /// The first half of the server's bytes.
    FirstHalf,
    /// The first half once more.
    Repeated,
    /// The client's FIN.
    ClientFin,
    /// The server's FIN.
    ServerFin,
    /// The client's last acknowledgement.
    LastAck,
}

/// All steps, in order.
pub(crate) const STEPS: [Step; 10] = [
    Step::Syn,
    Step::SynAck,
    Step::Opened,
    Step::Request,
    Step::LateHalf,
    Step::FirstHalf,
    Step::Repeated,
    Step::ClientFin,
    Step::ServerFin,
    Step::LastAck,
];

/// What a step sends: flags, sequence and acknowledgement number of the TCP header, and which of the sender's bytes.
#[derive(Clone, Copy)]
pub struct Segment {
    pub sender: Sender,
    pub flags: u8,
    pub seq: u32,
    pub ack: u32,
    /// The position of the first byte of the payload.
    pub first: u32,
    /// How many bytes the payload has.
    pub count: u32,
}

// A sequence number of the client, so many behind that of its SYN.
fn in_client(connection: u32, behind: u32) -> u32
    ensures { result ≡ in_client connection behind }
{
    connection.wrapping_mul(2_654_435_761).wrapping_add(behind)
}

// A sequence number of the server, so many behind that of its SYN.
fn in_server(connection: u32, behind: u32) -> u32
    ensures { result ≡ in_server connection behind }
{
    in_client(connection, 1 << 31).wrapping_add(behind)
}

// A segment without payload.
fn bare(sender: Sender, flags: u8, seq: u32, ack: u32) -> Segment
    ensures { result ≡ record { sender = sender; flags = flags; seq = seq; ack = ack; first = 0; count = 0 } }
{
    Segment {
        sender,
        flags,
        seq,
        ack,
        first: 0,
        count: 0,
    }
}

// A segment with PSH and ACK, and these bytes.
fn pushed(sender: Sender, seq: u32, ack: u32, first: u32, count: u32) -> Segment
    ensures { result ≡ record { sender = sender; flags = 24; seq = seq; ack = ack; first = first; count = count } }
{
    Segment {
        sender,
        flags: PSH_ACK,
        seq,
        ack,
        first,
        count,
    }
}

// What a connection sends in this step.
#[tactic(auto, unfolding(crate::specs::Table::step_segment))]
pub(crate) fn segment_in(step: Step, connection: u32) -> Segment
    ensures segment { result ≡ step_segment step connection }
    ensures first { result.first ≤ 100 }
    ensures count { result.count ≤ 100 }
{
    // The numbers behind the client's SYN, its bytes and its FIN, and behind the server's SYN and its bytes.
    let opened = in_client(connection, 1);
    let asked = in_client(connection, 65);
    let closed = in_client(connection, 66);
    let answered = in_server(connection, 1);
    let told = in_server(connection, 201);
    match step {
        Step::Syn => bare(Sender::Client, SYN, in_client(connection, 0), 0),
        Step::SynAck => bare(Sender::Server, SYN_ACK, in_server(connection, 0), opened),
        Step::Opened => bare(Sender::Client, ACK, opened, answered),
        Step::Request => pushed(Sender::Client, opened, answered, 0, 64),
        Step::LateHalf => pushed(Sender::Server, in_server(connection, 101), asked, 100, 100),
        Step::FirstHalf | Step::Repeated => pushed(Sender::Server, answered, asked, 0, 100),
        Step::ClientFin => bare(Sender::Client, FIN_ACK, asked, told),
        Step::ServerFin => bare(Sender::Server, FIN_ACK, told, closed),
        Step::LastAck => bare(Sender::Client, ACK, closed, in_server(connection, 202)),
    }
}
