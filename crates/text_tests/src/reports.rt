//! Each form of a line, written and read back, and what a sink that fails has taken.

use crate::memory::sink;
use crate::records::{OVER_IPV4, OVER_IPV6, QUIET, Row, Sight, are_rows, records};
use app_api::{END, ERROR, NEW_DATA, PKT_IN, Reason};
use flow_table::Endpoint;
use native_filters::Hook;
use packet_views::Class;
use report_text::{
    Record, RecordKind, TextError, Totals, is_tidy, read_report, write_report, write_totals,
};
use std::alloc::{AllocError, Global};
use std::test::Fail;

// The counts of a handshake, and their line.
const COUNTS: Totals = Totals {
    packets: 3,
    records: 1,
    callbacks: 6,
    drops: 0,
    tail: 0,
};

// The record of a handshake: at each packet a callback at its sender, and one at its receiver.
const HANDSHAKE: Row = Row {
    callbacks: &[
        (0, Hook::Snd, PKT_IN, 1, Sight::Nothing),
        (0, Hook::Rcv, PKT_IN, 2, Sight::Nothing),
        (1, Hook::Snd, PKT_IN, 1, Sight::Nothing),
        (1, Hook::Rcv, PKT_IN, 2, Sight::Nothing),
        (2, Hook::Snd, PKT_IN, 1, Sight::Nothing),
        (2, Hook::Rcv, PKT_IN, 2, Sight::Nothing),
    ],
    ..QUIET
};

pub(crate) const HANDSHAKE_TEXT: &[u8] = b"conn 0 10.0.0.1:1000 > 10.0.0.2:80 v 0\n\
    cb 0 snd pkt_in 1\n\
    cb 0 rcv pkt_in 2\n\
    cb 1 snd pkt_in 1\n\
    cb 1 rcv pkt_in 2\n\
    cb 2 snd pkt_in 1\n\
    cb 2 rcv pkt_in 2\n\
    end packets 3 records 1 callbacks 6 drops 0 tail 0\n";

// A packet of no connection.
const ORPHAN: Row = Row {
    kind: RecordKind::Orphan { class: Class::Tcp },
    version: 5,
    ..QUIET
};

// Records, and their report with the counts above.
const REPORTS: &[(&str, &[Row], &[u8])] = &[
    ("a handshake", &[HANDSHAKE], HANDSHAKE_TEXT),
    (
        "orphans and IPv6",
        &[
            ORPHAN,
            Row {
                name: 1,
                kind: RecordKind::Orphan {
                    class: Class::Other,
                },
                ..ORPHAN
            },
            Row {
                name: 2,
                kind: RecordKind::Orphan {
                    class: Class::Fragment,
                },
                ..ORPHAN
            },
            Row {
                name: 3,
                kind: RecordKind::Orphan { class: Class::Cut },
                ..ORPHAN
            },
            Row {
                name: 40,
                kind: RecordKind::Orphan { class: Class::Bad },
                ..ORPHAN
            },
            Row {
                name: 41,
                kind: OVER_IPV6,
                ..QUIET
            },
        ],
        b"orphan 0 tcp v 5\n\
        orphan 1 other v 5\n\
        orphan 2 fragment v 5\n\
        orphan 3 cut v 5\n\
        orphan 40 bad v 5\n\
        conn 41 [2001:db8:0:0:0:0:0:1]:1000 > [2001:db8:0:0:0:0:0:2]:80 v 0\n\
        end packets 3 records 1 callbacks 6 drops 0 tail 0\n",
    ),
    (
        "groups of one to four digits",
        &[Row {
            kind: RecordKind::Conn {
                client: Endpoint::V6 {
                    addr: 0x0001_0010_0100_1000_000f_00ff_0fff_ffff,
                    port: 65535,
                },
                server: Endpoint::V6 {
                    addr: 0x0000_0009_000a_0099_00a0_09a9_abcd_f00f,
                    port: 0,
                },
            },
            ..QUIET
        }],
        b"conn 0 [1:10:100:1000:f:ff:fff:ffff]:65535 > [0:9:a:99:a0:9a9:abcd:f00f]:0 v 0\n\
        end packets 3 records 1 callbacks 6 drops 0 tail 0\n",
    ),
    (
        "what callbacks saw",
        &[Row {
            version: 4,
            callbacks: &[
                (3, Hook::Rcv, 1, 16, Sight::At(0, &[(4, b"EFGH")])),
                (4, Hook::Rcv, 1, 16, Sight::At(0, &[(0, b"ABCDEFGH")])),
                (
                    4,
                    Hook::Rcv,
                    255,
                    16,
                    Sight::At(0, &[(0, b"AB"), (4, b"\x00\xff")]),
                ),
                (4, Hook::Rcv, ERROR, 16, Sight::At(0, &[])),
                (4, Hook::Rcv, NEW_DATA, 16, Sight::Next(0, 0, b"BBAAAA")),
                (4, Hook::Rcv, 1, 16, Sight::Next(4, 4, b"EFGH")),
                (5, Hook::Rcv, END, 16, Sight::Next(0, 0, b"")),
            ],
            ..QUIET
        }],
        b"conn 0 10.0.0.1:1000 > 10.0.0.2:80 v 4\n\
        cb 3 rcv 1 16 at 0 4:45464748\n\
        cb 4 rcv 1 16 at 0 0:4142434445464748\n\
        cb 4 rcv 255 16 at 0 0:4142 4:00ff\n\
        cb 4 rcv error 16 at 0\n\
        cb 4 rcv new_data 16 peek 0 0 424241414141\n\
        cb 4 rcv 1 16 peek 4 4 45464748\n\
        cb 5 rcv end 16 peek 0 0 -\n\
        end packets 3 records 1 callbacks 6 drops 0 tail 0\n",
    ),
    (
        "names of events",
        &[Row {
            name: 9,
            callbacks: &[
                (9, Hook::Snd, 255, 255, Sight::Nothing),
                (9, Hook::Snd, 256, 255, Sight::Nothing),
                (9, Hook::Snd, 257, 255, Sight::Nothing),
                (9, Hook::Snd, 258, 255, Sight::Nothing),
                (9, Hook::Snd, 259, 255, Sight::Nothing),
                (9, Hook::Snd, 260, 255, Sight::Nothing),
                (9, Hook::Snd, 261, 255, Sight::Nothing),
                (9, Hook::Snd, 262, 255, Sight::Nothing),
                (9, Hook::Snd, 263, 255, Sight::Nothing),
                (9, Hook::Rcv, 264, 255, Sight::Nothing),
            ],
            ..QUIET
        }],
        b"conn 9 10.0.0.1:1000 > 10.0.0.2:80 v 0\n\
        cb 9 snd 255 255\n\
        cb 9 snd start 255\n\
        cb 9 snd pkt_in 255\n\
        cb 9 snd rexmit 255\n\
        cb 9 snd new_data 255\n\
        cb 9 snd error 255\n\
        cb 9 snd state 255\n\
        cb 9 snd end 255\n\
        cb 9 snd orphan 255\n\
        cb 9 rcv timer 255\n\
        end packets 3 records 1 callbacks 6 drops 0 tail 0\n",
    ),
    (
        "drops and fields",
        &[Row {
            name: 3,
            version: 2,
            callbacks: &[(3, Hook::Snd, 7, 16, Sight::Nothing)],
            drops: &[
                (3, Reason::Reg(16)),
                (12, Reason::Rule(0)),
                (u64::MAX, Reason::Rule(255)),
            ],
            fields: &[("up_pkts", 5), ("t0", u64::MAX), ("_", 0)],
            ..QUIET
        }],
        b"conn 3 10.0.0.1:1000 > 10.0.0.2:80 v 2\n\
        cb 3 snd 7 16\n\
        drop 3 reg 16\n\
        drop 12 rule 0\n\
        drop 18446744073709551615 rule 255\n\
        field up_pkts 5\n\
        field t0 18446744073709551615\n\
        field _ 0\n\
        end packets 3 records 1 callbacks 6 drops 0 tail 0\n",
    ),
];

// Whether the records are tidy, writing their report comes to this, and the sink, whose call of this number fails, has then
// taken this text.
fn is_written(
    alloc: Global,
    records: &[Record],
    totals: &Totals,
    fails: u64,
    outcome: Result<(), TextError>,
    text: &[u8],
) -> Result<bool, AllocError> {
    let mut out = sink(alloc, 2_048, fails)?;
    Ok(
        is_tidy(records)
            && write_report(alloc, &mut out, records, totals) == outcome
            && out.bytes() == text,
    )
}

fn is_report(alloc: Global, rows: &[Row], text: &[u8]) -> Result<bool, AllocError> {
    is_written(alloc, &records(alloc, rows)?, &COUNTS, 99, Ok(()), text)
}

fn is_read_back(alloc: Global, rows: &[Row], text: &[u8]) -> bool {
    match read_report(alloc, text) {
        Ok((list, totals)) => totals == COUNTS && are_rows(list.as_slice(), rows),
        Err(_) => false,
    }
}

fn is_written_and_read_back(alloc: Global, rows: &[Row], text: &[u8]) -> Result<bool, AllocError> {
    Ok(is_report(alloc, rows, text)? && is_read_back(alloc, rows, text))
}

#[test]
fn records_are_written_and_read_back(rt: HostRuntime) -> Result<(), Fail> {
    for &(name, rows, text) in REPORTS {
        assert!(rt; is_written_and_read_back(rt.alloc(), rows, text)?, "{name}");
    }
    Ok(())
}

// A report with each form of a line.
const EACH_FORM: &[u8] = b"conn 3 10.0.0.1:1000 > 10.0.0.2:80 v 2\n\
    cb 3 snd 7 16\n\
    cb 4 rcv start 1\n\
    cb 4 snd pkt_in 1\n\
    cb 4 rcv rexmit 1\n\
    cb 4 rcv new_data 255 peek 0 2 4142\n\
    cb 4 rcv error 1 peek 18446744073709551615 0 -\n\
    cb 4 rcv state 1 at 0\n\
    cb 5 rcv end 1 at 7 0:4142 4:00ff\n\
    cb 5 rcv timer 1 peek 0 2 4142\n\
    drop 3 reg 16\n\
    drop 12 rule 0\n\
    field up_pkts 5\n\
    field _ 18446744073709551615\n\
    orphan 9 tcp v 4294967295\n\
    cb 9 snd orphan 3\n\
    drop 9 rule 255\n\
    orphan 10 other v 0\n\
    orphan 11 fragment v 0\n\
    orphan 12 cut v 0\n\
    orphan 13 bad v 0\n\
    conn 41 [2001:db8:0:0:0:0:0:1]:1000 > [2001:db8:0:0:0:0:0:2]:80 v 0\n\
    end packets 3 records 1 callbacks 6 drops 0 tail 4294967295\n";

const TEXTS: &[(&str, &[u8])] = &[
    ("each form of a line", EACH_FORM),
    ("a handshake", HANDSHAKE_TEXT),
    (
        "no records",
        b"end packets 3 records 1 callbacks 6 drops 0 tail 0\n",
    ),
];

// Whether a text is read as records whose report it is.
fn is_written_again(alloc: Global, text: &[u8]) -> Result<bool, AllocError> {
    match read_report(alloc, text) {
        Ok((list, totals)) => is_written(alloc, list.as_slice(), &totals, 99, Ok(()), text),
        Err(_) => Ok(false),
    }
}

#[test]
fn texts_are_read_and_written_again(rt: HostRuntime) -> Result<(), Fail> {
    for &(name, text) in TEXTS {
        assert!(rt; is_written_again(rt.alloc(), text)?, "{name}");
    }
    Ok(())
}

const LARGE: Totals = Totals {
    packets: u64::MAX,
    records: 1,
    callbacks: 22,
    drops: 333,
    tail: 4_294_967_295,
};

const LARGE_TEXT: &[u8] =
    b"end packets 18446744073709551615 records 1 callbacks 22 drops 333 tail 4294967295\n";

fn are_totals(alloc: Global, totals: &Totals, text: &[u8]) -> Result<bool, AllocError> {
    let mut out = sink(alloc, 512, 99)?;
    Ok(write_totals(alloc, &mut out, totals) == Ok(()) && out.bytes() == text)
}

#[test]
fn the_totals(rt: HostRuntime) -> Result<(), Fail> {
    assert!(rt; are_totals(rt.alloc(), &LARGE, LARGE_TEXT)?);
    Ok(())
}

// The call of the sink that fails, and how many bytes of the handshake's report it has taken.
const FAULTS: &[(&str, u64, usize)] = &[
    ("the first line", 0, 19),
    ("the first callback", 1, 48),
    ("the fourth callback", 4, 102),
    ("the totals", 7, 172),
];

fn is_cut(alloc: Global, fails: u64, taken: usize) -> Result<bool, AllocError> {
    let Some(text) = HANDSHAKE_TEXT.get(..taken) else {
        return Ok(false);
    };
    let records = records(alloc, &[HANDSHAKE])?;
    let fault = Err(TextError::WriteFault);
    is_written(alloc, &records, &COUNTS, fails, fault, text)
}

// Each line is written by one call. A call that fails takes half of its line, and none follows.
#[test]
fn a_write_that_fails(rt: HostRuntime) -> Result<(), Fail> {
    for &(name, fails, taken) in FAULTS {
        assert!(rt; is_cut(rt.alloc(), fails, taken)?, "{name}");
    }
    Ok(())
}

// Records of which each breaks one rule alone.
const UNTIDY: &[(&str, &[Row])] = &[
    (
        "event 0",
        &[Row {
            callbacks: &[(0, Hook::Snd, 0, 1, Sight::Nothing)],
            ..QUIET
        }],
    ),
    (
        "event 265",
        &[Row {
            callbacks: &[(0, Hook::Snd, 265, 1, Sight::Nothing)],
            ..QUIET
        }],
    ),
    (
        "the greatest event",
        &[Row {
            callbacks: &[(0, Hook::Snd, u16::MAX, 1, Sight::Nothing)],
            ..QUIET
        }],
    ),
    (
        "an empty piece",
        &[Row {
            callbacks: &[(0, Hook::Snd, 1, 1, Sight::At(0, &[(0, b"A"), (4, b"")]))],
            ..QUIET
        }],
    ),
    (
        "a field without a name",
        &[Row {
            fields: &[("", 0)],
            ..QUIET
        }],
    ),
    (
        "a capital letter",
        &[Row {
            fields: &[("Up", 0)],
            ..QUIET
        }],
    ),
    (
        "a dash in a name",
        &[Row {
            fields: &[("up-pkts", 0)],
            ..QUIET
        }],
    ),
    (
        "a blank in a name",
        &[Row {
            fields: &[("up pkts", 0)],
            ..QUIET
        }],
    ),
    (
        "a letter beyond ASCII",
        &[Row {
            fields: &[("\u{e9}", 0)],
            ..QUIET
        }],
    ),
    (
        "a packet dropped twice",
        &[Row {
            drops: &[(4, Reason::Rule(0)), (4, Reason::Rule(0))],
            ..QUIET
        }],
    ),
    (
        "drops out of order",
        &[Row {
            drops: &[(5, Reason::Rule(0)), (4, Reason::Rule(0))],
            ..QUIET
        }],
    ),
    (
        "the greatest packet dropped twice",
        &[Row {
            drops: &[(u64::MAX, Reason::Rule(0)), (u64::MAX, Reason::Rule(0))],
            ..QUIET
        }],
    ),
    (
        "one name twice",
        &[Row { name: 4, ..QUIET }, Row { name: 4, ..QUIET }],
    ),
    (
        "names out of order",
        &[Row { name: 5, ..QUIET }, Row { name: 4, ..QUIET }],
    ),
    (
        "the greatest name twice",
        &[
            Row {
                name: u64::MAX,
                ..QUIET
            },
            Row {
                name: u64::MAX,
                ..QUIET
            },
        ],
    ),
    (
        "a field of an orphan",
        &[Row {
            fields: &[("up_pkts", 0)],
            ..ORPHAN
        }],
    ),
];

fn is_untidy(alloc: Global, rows: &[Row]) -> Result<bool, AllocError> {
    Ok(!is_tidy(&records(alloc, rows)?))
}

#[test]
fn records_that_are_not_tidy(rt: HostRuntime) -> Result<(), Fail> {
    for &(name, rows) in UNTIDY {
        assert!(rt; is_untidy(rt.alloc(), rows)?, "{name}");
    }
    Ok(())
}
