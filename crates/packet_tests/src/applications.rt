//! The built-in events by their numbers, changes, and the application that only logs.

use app_api::{
    ActiveList, App, Call, Change1, Changes, DropList, END, ERROR, Entry, EntryList, FieldList,
    LogApp, NEW_DATA, ORPHAN, PKT_IN, PeekSpec, REXMIT, Reaction, Reg, Rule, START, STATE, Seen,
    TIMER, Tally, Verdict, allows_hook, fields_of, presets_of,
};
use native_filters::{Facts, Hook};
use std::alloc::Global;

// An event's number, the number that it should have, and whether it is raised at the sender and at the receiver.
const EVENTS: &[(&str, u16, u16, bool, bool)] = &[
    ("before the first", 255, 255, false, false),
    ("start", START, 256, true, false),
    ("pkt_in", PKT_IN, 257, true, true),
    ("rexmit", REXMIT, 258, false, true),
    ("new_data", NEW_DATA, 259, false, true),
    ("error", ERROR, 260, false, true),
    ("state", STATE, 261, true, true),
    ("end", END, 262, false, true),
    ("orphan", ORPHAN, 263, true, false),
    ("timer", TIMER, 264, false, true),
    ("after the last", 265, 265, false, false),
];

#[test]
fn hooks_of_the_built_in_events(rt: HostRuntime) {
    for &(name, event, number, at_sender, at_receiver) in EVENTS {
        assert!(rt;
            event == number
                && allows_hook(number, Hook::Snd) == at_sender
                && allows_hook(number, Hook::Rcv) == at_receiver,
            "{name}"
        );
    }
}

#[test]
fn changes_stand_in_order(rt: HostRuntime) {
    let rows = [
        Change1 { reg: 17, on: true },
        Change1 { reg: 18, on: false },
        Change1 { reg: 17, on: true },
        Change1 { reg: 2, on: true },
    ];
    let mut changes = Changes::new();
    for change in rows {
        if changes.as_slice().len() < 4 {
            changes.add(change);
        }
    }
    assert!(rt; changes.as_slice() == rows.as_slice());
}

// A preset's place and number, its event and side, and whether it is on.
const PRESETS: &[(&str, usize, (u8, u16, Hook, bool))] = &[
    ("at the sender", 0, (1, 257, Hook::Snd, true)),
    ("at the receiver", 1, (2, 257, Hook::Rcv, true)),
    ("orphans", 2, (3, 263, Hook::Snd, true)),
];

// Whether the registration at a place is this one, without a peek and an action.
fn has_plain(presets: &[Reg], place: usize, wanted: (u8, u16, Hook, bool)) -> bool {
    match presets.get(place) {
        Some(reg) => {
            (reg.number, reg.event, reg.hook, reg.on) == wanted
                && reg.peek == PeekSpec::Nothing
                && !reg.action.drop
                && reg.action.changes.as_slice().is_empty()
        }
        None => false,
    }
}

#[test]
fn log_has_three_presets(rt: HostRuntime) {
    let presets = presets_of(rt.alloc(), &LogApp).expect(&rt, "memory");
    assert!(rt; presets.len() == 3);
    for &(name, place, wanted) in PRESETS {
        assert!(rt; has_plain(&presets, place, wanted), "{name}");
    }
    assert!(rt; LogApp.preset(0).is_none() && LogApp.preset(4).is_none());
}

// Whether it asks nothing of a packet, and leaves a fresh tally as it is.
fn only_logs(tally: &mut Tally) -> bool {
    let call = Call {
        reg: 1,
        hook: Hook::Snd,
        event: PKT_IN,
        facts: Facts::none(),
        got: 0,
    };
    let reaction = LogApp.react(tally, &call, &[]);
    reaction.drop.is_none() && reaction.changes.as_slice().is_empty() && *tally == ZEROS
}

const ZEROS: Tally = Tally {
    t0: 0,
    t1: 0,
    t2: 0,
    t3: 0,
    t4: 0,
    t5: 0,
    t6: 0,
    t7: 0,
};

fn has_no_fields(alloc: Global, tally: &Tally) -> bool {
    match fields_of(alloc, &LogApp, tally) {
        Ok(fields) => fields.as_slice().is_empty(),
        Err(_) => false,
    }
}

#[test]
fn log_asks_nothing(rt: HostRuntime) {
    let mut tally = LogApp.fresh();
    assert!(rt; only_logs(&mut tally) && has_no_fields(rt.alloc(), &tally));
}

fn is_shared<T: Send + Sync>(_: &T) -> bool {
    true
}

const RULE: Rule = Rule {
    number: 1,
    allow: true,
    src: 0,
    src_len: 0,
    dst: 0,
    dst_len: 0,
    low: 0,
    high: 65535,
};

#[test]
fn threads_share_registrations(rt: HostRuntime) {
    assert!(rt; is_shared(&LogApp) && is_shared(&Reg::preset(1, PKT_IN, Hook::Snd, true)));
    assert!(rt; is_shared(&RULE) && is_shared(&Reaction::nothing()) && is_shared(&Tally::zeros()));
    assert!(rt; is_shared(&Verdict::Pass));
}

#[test]
fn threads_share_entries(rt: HostRuntime) {
    let entry = Entry {
        index: 0,
        hook: Hook::Snd,
        event: 257,
        reg: 1,
        seen: Seen::Nothing,
    };
    let entries = EntryList {
        items: Vec::new(rt.alloc()),
    };
    assert!(rt; is_shared(&entry) && is_shared(&entries) && entries.as_slice().is_empty());
}

#[test]
fn threads_share_drops_and_fields(rt: HostRuntime) {
    let drops = DropList {
        items: Vec::new(rt.alloc()),
    };
    let active = ActiveList {
        items: Vec::new(rt.alloc()),
    };
    let fields = FieldList {
        items: Vec::new(rt.alloc()),
    };
    assert!(rt; is_shared(&drops) && is_shared(&active) && is_shared(&fields));
    assert!(rt;
        drops.as_slice().is_empty() && active.as_slice().is_empty() && fields.as_slice().is_empty()
    );
}
