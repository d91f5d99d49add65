//! What the native filters say, asked by two threads, and the places of facts.

ghost use Rattle.std.specs.Prelude.{◌≤◌};

use native_filters::{
    Facts, Hook, Native, NativeBook, has_differing_bytes, has_system_port, is_ending,
    is_keep_alive, is_opening, is_private_traffic,
};
use std::thread;
use std::thread::Threads;

const PRIVATE: u64 = 0x0a00_0001;

const LAST_OF_172_16: u64 = 0xac1f_ffff;

const PUBLIC: u64 = 0xc000_0201;

const NONE: Facts = Facts {
    dir: 0,
    nth: 0,
    src: 0,
    dst: 0,
    sport: 0,
    dport: 0,
    seq: 0,
    ack: 0,
    flags: 0,
    win: 0,
    len: 0,
    ttl: 0,
    old: 0,
    new: 0,
    fresh: 0,
    rexlen: 0,
    rexdiff: 0,
    fault: 0,
    next: 0,
    class: 0,
};

// The facts of a packet that are not 0.
#[derive(Clone, Copy)]
enum Told {
    Flags(u64),
    // Of the source and of the destination.
    Ports(u64, u64),
    Addresses(u64, u64),
    // How many bytes it has, how many came before, and how many of these differ.
    Again(u64, u64, u64),
}

use Told::{Addresses, Again, Flags, Ports};

fn facts_of(told: Told) -> Facts {
    match told {
        Flags(flags) => Facts { flags, ..NONE },
        Ports(sport, dport) => Facts {
            sport,
            dport,
            ..NONE
        },
        Addresses(src, dst) => Facts { src, dst, ..NONE },
        Again(len, rexlen, rexdiff) => Facts {
            len,
            rexlen,
            rexdiff,
            ..NONE
        },
    }
}

// The number of a native filter, and facts of which it is true or false.
const CASES: &[(&str, u8, Told, bool)] = &[
    ("a SYN opens", 0, Flags(0x02), true),
    ("a SYN with ACK doesn't open", 0, Flags(0x12), false),
    ("port 80", 1, Ports(1024, 80), true),
    ("port 1024 is no system port", 1, Ports(1024, 8080), false),
    (
        "both ends private",
        2,
        Addresses(PRIVATE, LAST_OF_172_16),
        true,
    ),
    ("one end private", 2, Addresses(PRIVATE, PUBLIC), false),
    ("one byte again", 3, Again(1, 1, 0), true),
    ("one byte of two again", 3, Again(2, 1, 0), false),
    ("a FIN ends", 4, Flags(0x11), true),
    ("a PSH doesn't end", 4, Flags(0x18), false),
    ("two bytes differ", 5, Again(4, 4, 2), true),
    ("the same bytes again", 5, Again(4, 4, 0), false),
];

// The crate's own functions, each under its number.
fn own_book() -> NativeBook {
    NativeBook::new(
        Native::new(0, is_opening),
        Native::new(1, has_system_port),
        Native::new(2, is_private_traffic),
        Native::new(3, is_keep_alive),
        Native::new(4, is_ending),
        Native::new(5, has_differing_bytes),
    )
}

// What two threads are answered that share a book.
fn answers<R: Threads + Sync>(
    rt: &R,
    natives: &NativeBook,
    which: u8,
    facts: &Facts,
) -> (bool, bool)
    requires { which ≤ 5 }
{
    let first = || -> bool
        requires { which ≤ 5 }
    { natives.call(which, facts) };
    let second = || -> bool
        requires { which ≤ 5 }
    { natives.call(which, facts) };
    thread::join(rt, first, second)
}

#[test]
fn each_native_filter_is_true_and_false(rt: HostRuntime) {
    let natives = own_book();
    for &(name, which, told, wanted) in CASES {
        let facts = facts_of(told);
        assert!(rt;
            which <= 5 && answers(&rt, &natives, which, &facts) == (wanted, wanted),
            "{name}"
        );
    }
}

#[test]
fn facts_stand_in_order(rt: HostRuntime) {
    let facts = facts_of(Addresses(PRIVATE, PUBLIC));
    assert!(rt; (facts.get(0), facts.get(2), facts.get(3)) == (0, PRIVATE, PUBLIC));
}

fn is_shared<T: Send + Sync>(_: &T) -> bool {
    true
}

#[test]
fn threads_share_facts(rt: HostRuntime) {
    assert!(rt; is_shared(&Facts::none()) && is_shared(&Hook::Snd));
}
