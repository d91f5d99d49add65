//! Which connection a packet belongs to: vectors of the lanes, and each call of the table once.

ghost use Rattle.std.specs.Prelude.{◌≡◌, None};
ghost use Rattle.flow_table.specs.Key.{EndpointPair};
ghost use Rattle.flow_table.specs.Table.{found};

use flow_table::{Endpoint, FlowTable, Key, key_of, key_of_head, lane_of, mix, seed_of};
use packet_views::{View, view_of};

const ONE: Endpoint = Endpoint::V4 { addr: 0, port: 1 };

const TWO: Endpoint = Endpoint::V4 { addr: 0, port: 2 };

// The two halves of the address and the port, xored, make the number of the first endpoint.
const ONE_OF_IPV6: Endpoint = Endpoint::V6 {
    addr: (5 << 64) | 6,
    port: 2,
};

const CLIENT: Endpoint = Endpoint::V4 {
    addr: 0x0a00_0001,
    port: 1000,
};

const SERVER: Endpoint = Endpoint::V4 {
    addr: 0x0a00_0002,
    port: 80,
};

// A SYN from the client to the server.
const SYN: [u8; 54] = [
    0x02, 0x00, 0x00, 0x00, 0x00, 0x02, 0x02, 0x00, 0x00, 0x00, 0x00, 0x01, 0x08, 0x00, //
    0x45, 0x00, 0x00, 0x28, 0x00, 0x00, 0x40, 0x00, 0x40, 0x06, 0x00, 0x00, //
    0x0a, 0x00, 0x00, 0x01, 0x0a, 0x00, 0x00, 0x02, //
    0x03, 0xe8, 0x00, 0x50, 0x00, 0x00, 0x00, 0x64, 0x00, 0x00, 0x00, 0x00, //
    0x50, 0x02, 0xff, 0xff, 0x00, 0x00, 0x00, 0x00,
];

const MIXED: &[(&str, Endpoint, u64)] = &[
    ("port 1", ONE, 0x9e37_79b9_e17d_05ac),
    ("port 2", TWO, 0x3c6e_f372_c2fa_0b58),
    ("an IPv6 endpoint", ONE_OF_IPV6, 0x9e37_79b9_e17d_05ac),
];

#[test]
fn endpoints_are_mixed(rt: HostRuntime) {
    for &(name, endpoint, wanted) in MIXED {
        assert!(rt; mix(&endpoint) == wanted, "{name}");
    }
}

const DIRECTIONS: &[(&str, Endpoint, Endpoint)] = &[
    ("one to two", ONE, TWO),
    ("two to one", TWO, ONE),
];

#[test]
fn both_directions_have_a_lane(rt: HostRuntime) {
    for &(name, from, to) in DIRECTIONS {
        let key = Key::between(from, to);
        let sum = mix(&key.lo).wrapping_add(mix(&key.hi));
        let lanes = (lane_of(&key, 16), lane_of(&key, 2));
        assert!(rt; sum == 0xdaa6_6d2c_a477_1104 && lanes == (4, 0), "{name}");
    }
}

// Whether a frame is a segment from the client to the server.
fn goes_to_the_server(frame: &[u8]) -> bool {
    let View::Tcp(segment) = view_of(frame) else {
        return false;
    };
    let head = segment.head();
    let key = key_of(&segment);
    Endpoint::source_of(&head) == CLIENT
        && Endpoint::destination_of(&head) == SERVER
        && key == Key::between(SERVER, CLIENT)
        && key.lo == CLIENT
        && key_of_head(&head) == Key::between(CLIENT, SERVER)
}

#[test]
fn key_of_a_segment(rt: HostRuntime) {
    assert!(rt; goes_to_the_server(&SYN));
}

// Writes the value of a key, where it has one.
fn write(table: &mut FlowTable<u32>, key: &Key, new: u32) -> bool {
    match table.get_mut(key) {
        Some(value) => {
            *value = new;
            true
        }
        None => false,
    }
}

// Opens a connection in an empty table, writes its value and closes it, with another key tried at each step.
fn opens_and_closes(table: &mut FlowTable<u32>) -> bool
    requires { (key : EndpointPair) → found table.old key ≡ None }
{
    let key = Key::between(ONE, TWO);
    let other = Key::between(ONE, ONE);
    table.open(key, 7) == Ok(())
        && write(table, &key, 8)
        && !write(table, &other, 9)
        && table.close(&other) == None
        && table.close(&key) == Some(8)
        && table.close(&key) == None
        && table.take_any() == None
}

// Opens a connection in an empty table, and takes it as some connection.
fn opens_and_takes(table: &mut FlowTable<u32>) -> bool
    requires { (key : EndpointPair) → found table.old key ≡ None }
{
    let key = Key::between(TWO, ONE);
    table.open(key, 9) == Ok(()) && table.take_any() == Some((key, 9)) && table.take_any() == None
}

#[test]
fn open_write_and_close(rt: HostRuntime) {
    let mut table: FlowTable<u32> = FlowTable::new(rt.alloc());
    assert!(rt; opens_and_closes(&mut table));
}

#[test]
fn take_the_last(rt: HostRuntime) {
    let mut table: FlowTable<u32> = FlowTable::new(rt.alloc());
    assert!(rt; opens_and_takes(&mut table));
}

#[test]
fn table_with_a_seed(rt: HostRuntime) {
    let mut table: FlowTable<u32> = FlowTable::with_seed(rt.alloc(), seed_of(1, 2, &SYN));
    assert!(rt; opens_and_closes(&mut table));
}

#[test]
fn seed_by_time_and_frame(rt: HostRuntime) {
    let seed = seed_of(1, 2, &SYN);
    assert!(rt; seed != seed_of(1, 3, &SYN), "another fraction");
    assert!(rt; seed != seed_of(2, 1, &SYN), "seconds and fraction swapped");
    assert!(rt; seed != seed_of(1, 2, &SYN[..53]), "a byte less");
}

fn is_shared<T: Send + Sync>(_: &T) -> bool {
    true
}

#[test]
fn threads_share_keys(rt: HostRuntime) {
    assert!(rt; is_shared(&ONE) && is_shared(&Key::between(ONE, TWO)));
}

fn sent<T: Send>(value: T) -> T {
    value
}

// A table may go to another thread where its values may.
fn sent_table<T: Send>(table: FlowTable<T>) -> FlowTable<T> {
    sent(table)
}

#[test]
fn goes_to_a_thread(rt: HostRuntime) {
    let mut table: FlowTable<u32> = sent_table(FlowTable::new(rt.alloc()));
    assert!(rt; table.take_any() == None);
}
