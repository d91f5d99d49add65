//! What is in force at each version of a script of a dozen commands, and which commands may be given.

ghost use Rattle.shared_forest.specs.Rows.{HasRow};

use crate::masters::{Presets, master_after};
use app_api::{END, PKT_IN, Reg, Rule, TIMER};
use event_trees::{Defs, EventDef};
use filter_lang::parse;
use forest_versions::{Command, Control, Master, Refusal};
use native_filters::Hook::{self, Rcv, Snd};
use shared_forest::{ForestView, Slot, Table};
use std::alloc::{AllocError, Global};

const REGISTRATIONS: &str = "event 1 under pkt_in true\n\
    reg 16 1 snd\n\
    reg 17 state rcv off\n\
    unreg 1\n\
    event 2 under 1 true\n\
    reg 18 2 snd\n\
    unreg 16\n\
    reg 16 end rcv\n\
    unreg 17\n\
    unreg 2\n\
    reg 17 rexmit rcv\n\
    unreg 18";

const SETTINGS: &str = "policy last\n\
    rule 200 allow any any any\n\
    rule 1 allow any any any\n\
    rule 100 allow any any any\n\
    rbuf 1\n\
    unrule 100\n\
    policy first\n\
    unrule 1\n\
    rule 100 allow any any any\n\
    rbuf 1048576\n\
    unrule 200\n\
    policy last";

const LIMITS: &str = "idle 10\n\
    event 1 under timer nth > 3\n\
    reg 16 timer rcv\n\
    reg 17 1 rcv peek 4\n\
    idle 4294967295\n\
    rbuf 1\n\
    idle 1\n\
    unreg 16\n\
    idle 1\n\
    policy last\n\
    rule 7 allow any any any\n\
    unreg 1";

// A script; what is in force at each version, from 0 on: registrations with their events, the receive buffer, the policy,
// numbers of rules and the limit of idleness; the registrations of the last tree; how many rows the table has, and how many interns it counts.
const SCRIPTS: &[(&str, &str, &[&str; 13], &[u8], usize, u64)] = &[
    (
        "registrations come and go",
        REGISTRATIONS,
        &[
            "1:257 2:257 3:263 65536 First",
            "1:257 2:257 3:263 65536 First",
            "1:257 2:257 3:263 16:1 65536 First",
            "1:257 2:257 3:263 16:1 17:261 65536 First",
            "2:257 3:263 16:1 17:261 65536 First",
            "2:257 3:263 16:1 17:261 65536 First",
            "2:257 3:263 16:1 17:261 18:2 65536 First",
            "2:257 3:263 17:261 18:2 65536 First",
            "2:257 3:263 16:262 17:261 18:2 65536 First",
            "2:257 3:263 16:262 18:2 65536 First",
            "3:263 16:262 18:2 65536 First",
            "3:263 16:262 17:258 18:2 65536 First",
            "3:263 16:262 17:258 65536 First",
        ],
        &[17, 16, 3],
        9,
        9,
    ),
    (
        "settings and rules change",
        SETTINGS,
        &[
            "1:257 2:257 3:263 65536 First",
            "1:257 2:257 3:263 65536 Last",
            "1:257 2:257 3:263 65536 Last 200",
            "1:257 2:257 3:263 65536 Last 1 200",
            "1:257 2:257 3:263 65536 Last 1 100 200",
            "1:257 2:257 3:263 1 Last 1 100 200",
            "1:257 2:257 3:263 1 Last 1 200",
            "1:257 2:257 3:263 1 First 1 200",
            "1:257 2:257 3:263 1 First 200",
            "1:257 2:257 3:263 1 First 100 200",
            "1:257 2:257 3:263 1048576 First 100 200",
            "1:257 2:257 3:263 1048576 First 100",
            "1:257 2:257 3:263 1048576 Last 100",
        ],
        &[1, 2, 3],
        1,
        1,
    ),
    (
        "limits of idleness",
        LIMITS,
        &[
            "1:257 2:257 3:263 65536 First",
            "1:257 2:257 3:263 65536 First idle 10",
            "1:257 2:257 3:263 65536 First idle 10",
            "1:257 2:257 3:263 16:264 65536 First idle 10",
            "1:257 2:257 3:263 16:264 17:1 65536 First idle 10",
            "1:257 2:257 3:263 16:264 17:1 65536 First idle 4294967295",
            "1:257 2:257 3:263 16:264 17:1 1 First idle 4294967295",
            "1:257 2:257 3:263 16:264 17:1 1 First idle 1",
            "1:257 2:257 3:263 17:1 1 First idle 1",
            "1:257 2:257 3:263 17:1 1 First idle 1",
            "1:257 2:257 3:263 17:1 1 Last idle 1",
            "1:257 2:257 3:263 17:1 1 Last 7 idle 1",
            "2:257 3:263 17:1 1 Last 7 idle 1",
        ],
        &[2, 3, 17],
        5,
        5,
    ),
];

fn push_reg(alloc: Global, text: &mut String, reg: &Reg) -> Result<(), AllocError> {
    text.push_str(&format!(in alloc; "{}:{} ", reg.number, reg.event)?)
}

// Adds the registrations that are in force at a version.
fn push_regs(
    alloc: Global,
    text: &mut String,
    master: &Master,
    version: u32,
) -> Result<(), AllocError> {
    for number in 0..=u8::MAX {
        if let Some(reg) = master.reg_at(version, number) {
            push_reg(alloc, text, reg)?;
        }
    }
    Ok(())
}

// Adds the limit of idleness, if there is one.
fn push_limit(alloc: Global, text: &mut String, limit: Option<u32>) -> Result<(), AllocError> {
    match limit {
        Some(seconds) => text.push_str(&format!(in alloc; " idle {seconds}")?),
        None => Ok(()),
    }
}

// What is in force at a version.
fn told(alloc: Global, master: &Master, version: u32) -> Result<String, AllocError> {
    let mut text = String::new(alloc);
    push_regs(alloc, &mut text, master, version)?;
    let rbuf = master.rbuf_at(version);
    let policy = master.policy_at(version);
    text.push_str(&format!(in alloc; "{rbuf} {policy:?}")?)?;
    for rule in master.rules_at(version) {
        text.push_str(&format!(in alloc; " {}", rule.number)?)?;
    }
    push_limit(alloc, &mut text, master.idle_at(version))?;
    Ok(text)
}

// Whether these are in force at the versions from 0 on.
fn tells(alloc: Global, master: &Master, lines: &[&str; 13]) -> bool {
    for (version, line) in lines.iter().enumerate() {
        match told(alloc, master, version as u32) {
            Ok(text) => {
                if text.as_str() != *line {
                    return false;
                }
            }
            Err(_) => return false,
        }
    }
    true
}

// Whether registrations have these numbers.
fn are_numbered(slots: &[Slot], numbers: &[u8]) -> bool {
    slots.len() == numbers.len()
        && slots
            .iter()
            .zip(numbers)
            .all(|(slot, number)| slot.number == *number)
}

// Whether a script leaves this behind.
fn leaves(
    alloc: Global,
    script: &str,
    lines: &[&str; 13],
    numbers: &[u8],
    rows: usize,
    interns: u64,
) -> bool {
    let mut table = Table::new(alloc);
    match master_after(alloc, &mut table, Presets::Log, script) {
        Some(master) => {
            master.version() == 12
                && tells(alloc, &master, lines)
                && are_numbered(table.tree_of(master.forest()).slots(), numbers)
                && table.rows() == rows
                && table.interns() == interns
        }
        None => false,
    }
}

#[test]
fn each_version_tells_what_was_in_force(rt: HostRuntime) {
    for &(name, script, lines, numbers, rows, interns) in SCRIPTS {
        assert!(rt;
            leaves(rt.alloc(), script, lines, numbers, rows, interns),
            "{name}"
        );
    }
}

// A command of a table: an event and the one above it, a registration with its event and hook, and numbers.
#[derive(Clone, Copy)]
enum Judged {
    Event(u16, u16),
    Register(u8, u16, Hook),
    Unregister(u8),
    Buffer(u32),
    Idle(u32),
    AddRule(u8),
    RemoveRule(u8),
}

const BEFORE: &str = "event 1 under pkt_in true\n\
    event 2 under 1 true\n\
    event 3 under 2 true\n\
    event 4 under 3 true\n\
    event 5 under 4 true\n\
    event 6 under 5 true\n\
    event 7 under 6 true\n\
    reg 16 7 rcv\n\
    rule 7 allow any any any";

// A command, why it can't be given after those, and whether it may be given.
const JUDGED: &[(&str, Judged, Option<Refusal>, bool)] = &[
    (
        "event twice, parent missing",
        Judged::Event(1, 9),
        Some(Refusal::Duplicate),
        false,
    ),
    (
        "event under itself",
        Judged::Event(9, 9),
        Some(Refusal::NoSuchNumber),
        false,
    ),
    (
        "event 8 of a path",
        Judged::Event(8, 7),
        Some(Refusal::TooDeep),
        false,
    ),
    (
        "registration twice, event missing",
        Judged::Register(16, 9, Snd),
        Some(Refusal::Duplicate),
        false,
    ),
    (
        "registration of a missing event",
        Judged::Register(17, 9, Snd),
        Some(Refusal::NoSuchNumber),
        false,
    ),
    (
        "end at the sender",
        Judged::Register(17, END, Snd),
        Some(Refusal::WrongHook),
        false,
    ),
    (
        "unregister what is missing",
        Judged::Unregister(4),
        Some(Refusal::NoSuchNumber),
        false,
    ),
    (
        "rule twice",
        Judged::AddRule(7),
        Some(Refusal::Duplicate),
        false,
    ),
    (
        "remove a missing rule",
        Judged::RemoveRule(8),
        Some(Refusal::NoSuchNumber),
        false,
    ),
    (
        "registration at the end",
        Judged::Register(17, END, Rcv),
        None,
        true,
    ),
    ("unregister a preset", Judged::Unregister(1), None, true),
    ("remove a rule", Judged::RemoveRule(7), None, true),
    ("no buffer", Judged::Buffer(0), None, false),
    ("no limit of idleness", Judged::Idle(0), None, false),
    (
        "the greatest limit of idleness",
        Judged::Idle(u32::MAX),
        None,
        true,
    ),
    (
        "timer at the sender",
        Judged::Register(17, TIMER, Snd),
        Some(Refusal::WrongHook),
        false,
    ),
    (
        "timer at the receiver",
        Judged::Register(17, TIMER, Rcv),
        None,
        true,
    ),
    ("event under timer", Judged::Event(8, TIMER), None, true),
    (
        "event under no built-in event",
        Judged::Event(8, 265),
        Some(Refusal::NoSuchNumber),
        false,
    ),
    (
        "number of a preset",
        Judged::Register(15, 7, Rcv),
        None,
        false,
    ),
];

// The rule of a number for all addresses and ports.
fn rule(number: u8) -> Rule {
    Rule {
        number,
        allow: true,
        src: 0,
        src_len: 0,
        dst: 0,
        dst_len: 0,
        low: 0,
        high: 65535,
    }
}

// The event of a number, whose filter is always true.
fn event(alloc: Global, number: u16, parent: u16) -> Option<Command> {
    let filter = parse(alloc, "true").ok()?;
    Some(Command::Event(EventDef {
        number,
        parent,
        filter,
    }))
}

// The command of a row.
fn command_of(alloc: Global, judged: Judged) -> Option<Command> {
    match judged {
        Judged::Event(number, parent) => event(alloc, number, parent),
        Judged::Register(number, at, hook) => {
            Some(Command::Register(Reg::preset(number, at, hook, true)))
        }
        Judged::Unregister(number) => Some(Command::Unregister(number)),
        Judged::Buffer(bytes) => Some(Command::Buffer(bytes)),
        Judged::Idle(seconds) => Some(Command::Idle(seconds)),
        Judged::AddRule(number) => Some(Command::AddRule(rule(number))),
        Judged::RemoveRule(number) => Some(Command::RemoveRule(number)),
    }
}

// Whether a command is judged so by what is in force.
fn is_judged_by(
    control: &Control,
    command: &Command,
    refusal: Option<Refusal>,
    is_lawful: bool,
) -> bool {
    control.refusal(command) == refusal && control.is_lawful(command) == is_lawful
}

// Whether event 7 is the last of a path of eight.
fn has_longest_path(defs: &Defs) -> bool {
    match defs.root_of(7) {
        Some((root, len)) => root == PKT_IN && len == 8,
        None => false,
    }
}

// The same where these commands came before it.
fn is_judged_behind(
    alloc: Global,
    command: &Command,
    refusal: Option<Refusal>,
    is_lawful: bool,
) -> bool {
    let mut table = Table::new(alloc);
    match master_after(alloc, &mut table, Presets::Log, BEFORE) {
        Some(master) => {
            is_judged_by(master.control(), command, refusal, is_lawful)
                && has_longest_path(master.defs())
        }
        None => false,
    }
}

fn is_judged(alloc: Global, judged: Judged, refusal: Option<Refusal>, is_lawful: bool) -> bool {
    match command_of(alloc, judged) {
        Some(command) => is_judged_behind(alloc, &command, refusal, is_lawful),
        None => false,
    }
}

#[test]
fn commands_are_judged_where_they_stand(rt: HostRuntime) {
    for &(name, judged, refusal, is_lawful) in JUDGED {
        assert!(rt; is_judged(rt.alloc(), judged, refusal, is_lawful), "{name}");
    }
}
