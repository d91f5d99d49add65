//! The applications that count traffic: what they make of calls, and their presets.

use app_api::{
    App, Call, END, NEW_DATA, PKT_IN, REXMIT, Reaction, STATE, Tally, fields_of, presets_of,
};
use app_traffic::{AcctApp, RexmitApp};
use native_filters::Facts;
use native_filters::Hook::{self, Rcv, Snd};
use std::alloc::Global;

// A call of a table: its registration, hook and event, and its facts `dir`, `len`, `new` and `next`.
type CallRow = (&'static str, u8, Hook, u16, [u64; 4]);

const CALLS: &[CallRow] = &[
    ("packet up", 1, Snd, PKT_IN, [0, 0, 0, 0]),
    ("state of the client", 3, Snd, STATE, [0, 0, 2, 0]),
    ("state of the server", 4, Rcv, STATE, [0, 0, 3, 0]),
    ("packet down", 1, Snd, PKT_IN, [1, 0, 0, 0]),
    (
        "state of the client, as receiver",
        4,
        Rcv,
        STATE,
        [1, 0, 4, 0],
    ),
    ("five bytes up", 1, Snd, PKT_IN, [0, 5, 0, 0]),
    ("stream up", 2, Rcv, NEW_DATA, [0, 0, 0, 5]),
    ("eight bytes down", 1, Snd, PKT_IN, [1, 8, 0, 0]),
    ("stream down", 2, Rcv, NEW_DATA, [1, 0, 0, 8]),
    ("other hook", 1, Rcv, PKT_IN, [0, 100, 0, 0]),
    ("registration of a script", 16, Snd, PKT_IN, [0, 100, 0, 0]),
    ("end", 5, Rcv, END, [0, 0, 0, 0]),
];

const ACCOUNTS: [(&str, u64); 8] = [
    ("up_pkts", 2),
    ("up_bytes", 5),
    ("up_new", 5),
    ("down_pkts", 2),
    ("down_bytes", 8),
    ("down_new", 8),
    ("client_state", 4),
    ("server_state", 3),
];

const RETRANSMISSIONS: [(&str, u64); 4] = [
    ("rex_pkts", 1),
    ("rex_bytes", 4),
    ("rex_diff", 2),
    ("later_pkts", 1),
];

// The call of a row.
fn call_of(row: &CallRow) -> Call {
    let (_, reg, hook, event, [dir, len, new, next]) = *row;
    Call {
        reg,
        hook,
        event,
        facts: Facts {
            dir,
            len,
            new,
            next,
            ..Facts::none()
        },
        got: 0,
    }
}

// Whether a tally has these fields, and no others.
fn has_fields<A: App>(alloc: Global, app: &A, tally: &Tally, rows: &[(&str, u64)]) -> bool {
    match fields_of(alloc, app, tally) {
        Ok(fields) => {
            let fields = fields.as_slice();
            fields.len() == rows.len()
                && fields.iter().zip(rows).all(|(field, row)| field.0.as_slice() == row.0.as_bytes()
                    && field.1 == row.1)
        }
        Err(_) => false,
    }
}

// Whether a reaction asks nothing.
fn asks_nothing(reaction: &Reaction) -> bool {
    reaction.drop.is_none() && reaction.changes.as_slice().is_empty()
}

#[test]
fn accounts_of_a_short_connection(rt: HostRuntime) {
    let mut tally = AcctApp.fresh();
    for row in CALLS {
        let reaction = AcctApp.react(&mut tally, &call_of(row), &[]);
        assert!(rt; asks_nothing(&reaction), "{}", row.0);
    }
    assert!(rt; has_fields(rt.alloc(), &AcctApp, &tally, &ACCOUNTS));
}

// The call at four bytes again, two of which differ.
fn call_again(reg: u8, event: u16) -> Call {
    Call {
        reg,
        hook: Rcv,
        event,
        facts: Facts {
            rexlen: 4,
            rexdiff: 2,
            ..Facts::none()
        },
        got: 0,
    }
}

// Whether a reaction asks to switch the registration of this number on, and nothing else.
fn switches_on(reaction: &Reaction, number: u8) -> bool {
    match reaction.changes.as_slice() {
        [change] => reaction.drop.is_none() && change.reg == number && change.on,
        _ => false,
    }
}

// Whether the later packets are switched on by the first retransmission.
fn later_are_switched_on(alloc: Global) -> bool {
    let mut tally = RexmitApp.fresh();
    let first = RexmitApp.react(&mut tally, &call_again(1, REXMIT), &[]);
    let second = RexmitApp.react(&mut tally, &call_again(2, PKT_IN), &[]);
    switches_on(&first, 2)
        && asks_nothing(&second)
        && has_fields(alloc, &RexmitApp, &tally, &RETRANSMISSIONS)
}

#[test]
fn retransmissions_switch_the_later_packets_on(rt: HostRuntime) {
    assert!(rt; later_are_switched_on(rt.alloc()));
}

// A preset: its number, event and hook, and whether it is on.
type PresetRow = (u8, u16, Hook, bool);

const OF_ACCOUNTS: [PresetRow; 5] = [
    (1, PKT_IN, Snd, true),
    (2, NEW_DATA, Rcv, true),
    (3, STATE, Snd, true),
    (4, STATE, Rcv, true),
    (5, END, Rcv, true),
];

const OF_RETRANSMISSIONS: [PresetRow; 2] = [(1, REXMIT, Rcv, true), (2, PKT_IN, Rcv, false)];

// Whether an application has these presets, and no others.
fn has_presets<A: App>(alloc: Global, app: &A, rows: &[PresetRow]) -> bool {
    match presets_of(alloc, app) {
        Ok(presets) => {
            presets.len() == rows.len()
                && presets.iter().zip(rows).all(|(preset, row)| (
                    preset.number,
                    preset.event,
                    preset.hook,
                    preset.on,
                ) == *row)
        }
        Err(_) => false,
    }
}

#[test]
fn presets_by_number(rt: HostRuntime) {
    assert!(rt; has_presets(rt.alloc(), &AcctApp, &OF_ACCOUNTS), "accounts");
    assert!(rt;
        has_presets(rt.alloc(), &RexmitApp, &OF_RETRANSMISSIONS),
        "retransmissions"
    );
}
