//! Texts that are no reports, with the offsets worked out by hand.

use report_text::{ReadBack, read_report};
use std::alloc::{AllocError, Global};
use std::test::Fail;

const END: &str = "end packets 3 records 1 callbacks 6 drops 0 tail 0\n";

// Whether a text stops being a report at this offset.
fn stops_at(alloc: Global, text: &[u8], offset: u64) -> bool {
    match read_report(alloc, text) {
        Ok(_) => false,
        Err(why) => why == ReadBack::NoReport(offset),
    }
}

// Whether a line stops a report behind others, at this offset.
fn is_refused(alloc: Global, front: &str, line: &str, offset: u64) -> Result<bool, AllocError> {
    let text = format!(in alloc; "{front}{line}\n{END}")?;
    Ok(stops_at(alloc, text.as_bytes(), offset))
}

const FIRST_LINES: &[(&str, &str)] = &[
    ("no line", ""),
    (
        "a blank before it",
        " conn 3 10.0.0.1:1000 > 10.0.0.2:80 v 2",
    ),
    ("a capital letter", "Conn 3 10.0.0.1:1000 > 10.0.0.2:80 v 2"),
    ("a leading zero", "conn 03 10.0.0.1:1000 > 10.0.0.2:80 v 2"),
    ("a sign", "conn +3 10.0.0.1:1000 > 10.0.0.2:80 v 2"),
    ("two blanks", "conn  3 10.0.0.1:1000 > 10.0.0.2:80 v 2"),
    (
        "a name of 65 bits",
        "conn 18446744073709551616 10.0.0.1:1000 > 10.0.0.2:80 v 2",
    ),
    ("three parts", "conn 3 10.0.0:1000 > 10.0.0.2:80 v 2"),
    (
        "a part over 255",
        "conn 3 10.0.0.256:1000 > 10.0.0.2:80 v 2",
    ),
    (
        "a leading zero of a part",
        "conn 3 10.0.0.01:1000 > 10.0.0.2:80 v 2",
    ),
    (
        "a port over 65535",
        "conn 3 10.0.0.1:65536 > 10.0.0.2:80 v 2",
    ),
    (
        "another sign between",
        "conn 3 10.0.0.1:1000 < 10.0.0.2:80 v 2",
    ),
    ("no port", "conn 3 10.0.0.1:1000 > 10.0.0.2 v 2"),
    (
        "a version of 33 bits",
        "conn 3 10.0.0.1:1000 > 10.0.0.2:80 v 4294967296",
    ),
    (
        "a blank behind it",
        "conn 3 10.0.0.1:1000 > 10.0.0.2:80 v 2 ",
    ),
    (
        "a carriage return",
        "conn 3 10.0.0.1:1000 > 10.0.0.2:80 v 2\r",
    ),
    (
        "a leading zero of a group",
        "conn 3 [2001:0db8:0:0:0:0:0:1]:1000 > [1:2:3:4:5:6:7:8]:80 v 2",
    ),
    (
        "capital letters of a group",
        "conn 3 [2001:DB8:0:0:0:0:0:1]:1000 > [1:2:3:4:5:6:7:8]:80 v 2",
    ),
    (
        "groups left out",
        "conn 3 [2001:db8::1]:1000 > [1:2:3:4:5:6:7:8]:80 v 2",
    ),
    ("no class", "orphan 3 udp v 2"),
    ("no v", "orphan 3 tcp 2"),
    ("a callback", "cb 3 snd 7 16"),
    ("a drop", "drop 3 reg 16"),
    ("a field", "field up_pkts 5"),
    (
        "a tail of 33 bits",
        "end packets 3 records 1 callbacks 6 drops 0 tail 4294967296",
    ),
    ("no tail", "end packets 3 records 1 callbacks 6 drops 0"),
];

#[test]
fn first_lines_that_are_none(rt: HostRuntime) -> Result<(), Fail> {
    for &(name, line) in FIRST_LINES {
        assert!(rt; is_refused(rt.alloc(), "", line, 0)?, "{name}");
    }
    Ok(())
}

const CONNECTION: &str = "conn 3 10.0.0.1:1000 > 10.0.0.2:80 v 2\n";

const LINES: &[(&str, &str)] = &[
    ("no line", ""),
    ("a leading zero", "cb 03 snd 7 16"),
    ("no side", "cb 3 snx 7 16"),
    ("event 0", "cb 3 snd 0 16"),
    ("event 256 by number", "cb 3 snd 256 16"),
    ("no event", "cb 3 snd timers 16"),
    ("a registration over 255", "cb 3 snd 7 256"),
    ("no registration", "cb 3 snd 7"),
    ("a number behind it", "cb 3 snd 7 16 17"),
    ("a peek without bytes", "cb 3 snd 7 16 peek 0 2"),
    ("half a byte", "cb 3 snd 7 16 peek 0 2 414"),
    ("no hexadecimal digit", "cb 3 snd 7 16 peek 0 2 4G"),
    ("a capital digit", "cb 3 snd 7 16 peek 0 2 4A"),
    ("bytes behind none", "cb 3 snd 7 16 peek 0 2 - 41"),
    ("no place", "cb 3 snd 7 16 at"),
    ("a piece of no bytes", "cb 3 snd 7 16 at 0 0:-"),
    ("an empty piece", "cb 3 snd 7 16 at 0 0:"),
    ("a piece without a colon", "cb 3 snd 7 16 at 0 0 41"),
    ("a capital digit of a piece", "cb 3 snd 7 16 at 0 0:4B"),
    ("a drop by a registration over 255", "drop 3 reg 256"),
    ("a drop by a rule below 0", "drop 3 rule -1"),
    ("a drop by no one", "drop 3 all 1"),
    ("a capital letter of a field", "field Up 5"),
    ("a field without a name", "field  5"),
    ("a leading zero of a field", "field up 05"),
    ("a dash in a field's name", "field up-pkts 5"),
    (
        "the same connection",
        "conn 3 10.0.0.1:1000 > 10.0.0.2:80 v 2",
    ),
    ("an earlier orphan", "orphan 2 tcp v 5"),
];

// Behind the 39 bytes of a connection's first line.
#[test]
fn lines_of_a_record_that_are_none(rt: HostRuntime) -> Result<(), Fail> {
    for &(name, line) in LINES {
        assert!(rt; is_refused(rt.alloc(), CONNECTION, line, 39)?, "{name}");
    }
    Ok(())
}

const DROPPED: &str = "conn 3 10.0.0.1:1000 > 10.0.0.2:80 v 2\ndrop 3 reg 16\n";

const COUNTED: &str = "conn 3 10.0.0.1:1000 > 10.0.0.2:80 v 2\nfield up_pkts 5\n";

const ORPHAN: &str = "orphan 9 tcp v 5\n";

// What stands before the line, the line, and where it begins: behind a drop (39 + 14 bytes), behind a field (39 + 16),
// behind an orphan (17), and behind the totals (51).
const ORDER: &[(&str, &str, &str, u64)] = &[
    ("a packet dropped twice", DROPPED, "drop 3 rule 0", 53),
    ("drops out of order", DROPPED, "drop 2 rule 0", 53),
    ("a callback behind a drop", DROPPED, "cb 3 snd 7 16", 53),
    ("a drop behind a field", COUNTED, "drop 4 reg 1", 55),
    ("a callback behind a field", COUNTED, "cb 3 snd 7 16", 55),
    ("a field of an orphan", ORPHAN, "field up_pkts 5", 17),
    ("an orphan behind the totals", END, "orphan 9 tcp v 5", 51),
    ("a callback behind the totals", END, "cb 3 snd 7 16", 51),
    ("a drop behind the totals", END, "drop 4 reg 1", 51),
    ("an empty line behind the totals", END, "", 51),
];

#[test]
fn lines_out_of_their_order(rt: HostRuntime) -> Result<(), Fail> {
    for &(name, front, line, offset) in ORDER {
        assert!(rt; is_refused(rt.alloc(), front, line, offset)?, "{name}");
    }
    Ok(())
}

// A handshake in whose third line `rcv` is made `rcx`.
const ANOTHER_SIDE: &[u8] = b"conn 0 10.0.0.1:1000 > 10.0.0.2:80 v 0\n\
    cb 0 snd pkt_in 1\n\
    cb 0 rcx pkt_in 2\n\
    cb 1 snd pkt_in 1\n\
    cb 1 rcv pkt_in 2\n\
    cb 2 snd pkt_in 1\n\
    cb 2 rcv pkt_in 2\n\
    end packets 3 records 1 callbacks 6 drops 0 tail 0\n";

// Whole texts, and where they stop being reports.
const TEXTS: &[(&str, &[u8], u64)] = &[
    ("another word for a side", ANOTHER_SIDE, 57),
    ("no text", b"", 0),
    ("no totals", b"conn 3 10.0.0.1:1000 > 10.0.0.2:80 v 2\n", 39),
    (
        "a line without its end",
        b"orphan 9 tcp v 5\ncb 9 snd orphan 3",
        17,
    ),
    (
        "totals without their end",
        b"end packets 3 records 1 callbacks 6 drops 0 tail 0",
        0,
    ),
];

#[test]
fn texts_that_are_none(rt: HostRuntime) {
    for &(name, text, offset) in TEXTS {
        assert!(rt; stops_at(rt.alloc(), text, offset), "{name}");
    }
}
