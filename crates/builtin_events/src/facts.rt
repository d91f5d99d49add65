//! The facts of one phase, of an orphan, and of a connection that ended by idleness.

ghost use Rattle.std.specs.Prelude.{◌≡◌};
ghost use Rattle.std.specs.Option.{option_copied};
ghost use Rattle.builtin_events.specs.Facts.{side_number, class_number, head_facts, sender_facts, receiver_facts, known_facts, orphan_facts, fact_of_address, timer_facts, read_bytes};
ghost use Rattle.flow_table.specs.Endpoint.{port_of};

use flow_socket::{Got, Sent};
use flow_table::Endpoint;
use native_filters::Facts;
use packet_views::{Class, Head};
use tcp_emulation::Side;

/// The facts at a packet's sender.
#[tactic(auto, unfolding(crate::specs::Facts::sender_facts))]
pub(crate) fn sender_facts(h: &Head, from: Side, nth: u64, s: &Sent) -> Facts
    ensures { result ≡ sender_facts h.now from nth s.now }
{
    Facts {
        dir: side_number(from),
        nth,
        old: s.change.old.number(),
        new: s.change.new.number(),
        next: s.next,
        ..head_facts(h)
    }
}

/// The facts at a packet's receiver.
#[tactic(auto, unfolding(crate::specs::Facts::receiver_facts))]
pub(crate) fn receiver_facts(h: &Head, from: Side, nth: u64, g: &Got) -> Facts
    ensures { result ≡ receiver_facts h.now from nth g.now }
{
    Facts {
        dir: side_number(from),
        nth,
        old: g.change.old.number(),
        new: g.change.new.number(),
        fresh: read_bytes(h, g.placed.new),
        rexlen: read_bytes(h, g.placed.old),
        rexdiff: read_bytes(h, g.placed.differ),
        fault: u64::from(g.fault),
        next: g.next,
        ..head_facts(h)
    }
}

/// The facts of a packet that belongs to no connection.
#[tactic(auto, unfolding(crate::specs::Facts::orphan_facts))]
pub(crate) fn orphan_facts(class: Class, h: Option<&Head>) -> Facts
    ensures { result ≡ orphan_facts class (option_copied h.entry) }
{
    Facts {
        class: class_number(class),
        ..known_facts(class, h)
    }
}

/// The facts of a connection that ended by idleness: the client's direction, and the number of its packets.
#[tactic(auto, unfolding(crate::specs::Facts::timer_facts))]
pub(crate) fn timer_facts(client: Endpoint, server: Endpoint, members: u64) -> Facts
    ensures { result ≡ timer_facts client server members }
{
    Facts {
        nth: members,
        src: fact_of_address(client),
        dst: fact_of_address(server),
        sport: fact_of_port(client),
        dport: fact_of_port(server),
        ..Facts::none()
    }
}

// An IPv4 address as a fact. An IPv6 address has more than 64 bits.
fn fact_of_address(end: Endpoint) -> u64
    ensures { result ≡ fact_of_address end }
{
    match end {
        Endpoint::V4 { addr, .. } => u64::from(addr),
        Endpoint::V6 { .. } => 0,
    }
}

fn fact_of_port(end: Endpoint) -> u64
    ensures { result ≡ port_of end }
{
    match end {
        Endpoint::V4 { port, .. } | Endpoint::V6 { port, .. } => u64::from(port),
    }
}

// What the headers tell of an orphan of class tcp; of another they tell nothing.
fn known_facts(class: Class, h: Option<&Head>) -> Facts
    ensures { result ≡ known_facts class (option_copied h.entry) }
{
    match (class, h) {
        (Class::Tcp, Some(h)) => head_facts(h),
        _ => Facts::none(),
    }
}

// What the headers tell; all else is 0.
#[tactic(auto, unfolding(crate::specs::Facts::head_facts))]
fn head_facts(h: &Head) -> Facts
    ensures { result ≡ head_facts h.now }
{
    Facts {
        src: u64::from(h.src),
        dst: u64::from(h.dst),
        sport: u64::from(h.sport),
        dport: u64::from(h.dport),
        seq: u64::from(h.seq),
        ack: u64::from(h.ack),
        flags: u64::from(h.flags),
        win: u64::from(h.win),
        len: u64::from(h.len),
        ttl: u64::from(h.ttl),
        ..Facts::none()
    }
}

// A count of payload bytes, of which a segment with RST has none that is read.
pub(crate) fn read_bytes(h: &Head, count: u32) -> u64
    ensures { result ≡ read_bytes h.now count }
{
    if h.has_rst() { 0 } else { u64::from(count) }
}

fn side_number(side: Side) -> u64
    ensures { result ≡ side_number side }
{
    match side {
        Side::Client => 0,
        Side::Server => 1,
    }
}

fn class_number(class: Class) -> u64
    ensures { result ≡ class_number class }
{
    match class {
        Class::Tcp => 0,
        Class::Other => 1,
        Class::Fragment => 2,
        Class::Cut => 3,
        Class::Bad => 4,
    }
}
