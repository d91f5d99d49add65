//! The record of a packet, byte by byte.

ghost use Rattle.std.specs.Prelude.{◌≡◌, ◌+◌, ◌<◌, ◌≤◌, [], ◌++◌, ℕ, length, map};
ghost use Rattle.std.specs.List.{range_with_len};
ghost use Rattle.capture_maker.specs.Frames.{ethernet_header, record_head, ipv4_header, other, payload, packet_record, sender_address, source_port, tcp_header};
ghost use Rattle.capture_maker.specs.Sent.{IsSent};
ghost use Rattle.capture_maker.specs.Table.{byte_of};

use crate::piece::{Piece, put_u16, put_u32};
use crate::step::{Segment, Sender, segment_in};
use crate::turns::Turn;

// The address of connection 0's client; the others follow it.
const FIRST_CLIENT: u32 = 0x0a00_0001;

const SERVER: u32 = 0xc000_0201;

const TO_SERVER: [u8; 14] = [2, 0, 0, 0, 0, 2, 2, 0, 0, 0, 0, 1, 8, 0];

const TO_CLIENT: [u8; 14] = [2, 0, 0, 0, 0, 1, 2, 0, 0, 0, 0, 2, 8, 0];

// The byte at this position of what the sender sends.
fn sent_byte(sender: Sender, connection: u32, position: u32) -> u8
    requires connection { connection < 100000 }
    requires position { position < 200 }
    ensures { result ≡ byte_of sender connection position }
{
    match sender {
        Sender::Client => ((connection + position) % 256) as u8,
        Sender::Server => ((connection + 3 * position) % 256) as u8,
    }
}

// The other end.
fn other(sender: Sender) -> Sender
    ensures { result ≡ other sender }
{
    match sender {
        Sender::Client => Sender::Server,
        Sender::Server => Sender::Client,
    }
}

fn source_of(sender: Sender, connection: u32) -> u32
    requires { connection < 100000 }
    ensures { result ≡ sender_address sender connection }
{
    match sender {
        Sender::Client => FIRST_CLIENT + connection,
        Sender::Server => SERVER,
    }
}

fn port_of(sender: Sender, connection: u32) -> u16
    ensures { result ≡ source_port sender connection }
{
    match sender {
        Sender::Client => (1024 + connection % 60_000) as u16,
        Sender::Server => 80,
    }
}

// Puts the head of the record.
#[tactic(auto, unfolding(crate::specs::Frames::record_head))]
fn put_head(piece: &mut Piece, index: u32, segment: &Segment)
    requires count { segment.now.count ≤ 100 }
    requires room { length piece.old + 16 ≤ 170 }
    ensures bytes { piece.new ≡ piece.old ++ record_head index segment.now }
    ensures len { length piece.new ≡ length piece.old + 16 }
{
    let len = 54 + segment.count;
    put_u32(piece, index / 1000);
    put_u32(piece, index % 1000 * 1000);
    put_u32(piece, len);
    put_u32(piece, len);
}

fn put_ethernet(piece: &mut Piece, sender: Sender)
    requires room { length piece.old + 14 ≤ 170 }
    ensures bytes { piece.new ≡ piece.old ++ ethernet_header sender }
    ensures len { length piece.new ≡ length piece.old + 14 }
{
    match sender {
        Sender::Client => piece.put(&TO_SERVER),
        Sender::Server => piece.put(&TO_CLIENT),
    }
}

fn put_ipv4(piece: &mut Piece, connection: u32, segment: &Segment)
    requires sent { IsSent connection segment.now }
    requires room { length piece.old + 20 ≤ 170 }
    ensures bytes { piece.new ≡ piece.old ++ ipv4_header connection segment.now }
    ensures len { length piece.new ≡ length piece.old + 20 }
{
    piece.put(&[0x45, 0]);
    put_u16(piece, (40 + segment.count) as u16);
    piece.put(&[0, 0, 0x40, 0, 64, 6, 0, 0]);
    put_u32(piece, source_of(segment.sender, connection));
    put_u32(piece, source_of(other(segment.sender), connection));
}

fn put_tcp(piece: &mut Piece, connection: u32, segment: &Segment)
    requires room { length piece.old + 20 ≤ 170 }
    ensures bytes { piece.new ≡ piece.old ++ tcp_header connection segment.now }
    ensures len { length piece.new ≡ length piece.old + 20 }
{
    put_u16(piece, port_of(segment.sender, connection));
    put_u16(piece, port_of(other(segment.sender), connection));
    put_u32(piece, segment.seq);
    put_u32(piece, segment.ack);
    piece.put(&[0x50, segment.flags, 0xff, 0xff, 0, 0, 0, 0]);
}

fn put_payload(piece: &mut Piece, connection: u32, segment: &Segment)
    requires sent { IsSent connection segment.now }
    requires room { length piece.old + segment.now.count ≤ 170 }
    ensures bytes { piece.new ≡ piece.old ++ payload connection segment.now }
    ensures len { length piece.new ≡ length piece.old + segment.now.count }
{
    for i in 0..segment.count {
        piece.put(&[sent_byte(segment.sender, connection, segment.first + i)]);
    }
}

// Puts the record of the packet of this index.
#[tactic(auto, unfolding(crate::specs::Frames::frame_of))]
pub(crate) fn put_record(piece: &mut Piece, index: u32, turn: Turn)
    requires connection { turn.connection < 100000 }
    requires empty { piece.old ≡ [] }
    ensures { piece.new ≡ packet_record index turn }
{
    let sent = segment_in(turn.step, turn.connection);
    put_head(piece, index, &sent);
    put_ethernet(piece, sent.sender);
    put_ipv4(piece, turn.connection, &sent);
    put_tcp(piece, turn.connection, &sent);
    put_payload(piece, turn.connection, &sent);
}
