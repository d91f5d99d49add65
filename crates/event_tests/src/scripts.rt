//! Scripts and what they say, and scripts that are refused.

use crate::masters::script_of;
use app_api::{Action, Change1, Changes, NEW_DATA, PKT_IN, PeekSpec, Reg, Rule};
use control_script::{Script, ScriptError};
use forest_versions::{Command, Stamp};
use native_filters::Hook;
use std::alloc::Global;

// Scripts of one line or two, each with its refusal.
const REFUSED: &[(&str, ScriptError)] = &[
    ("reg 15 pkt_in snd", ScriptError::Syntax(1)),
    ("reg 16 end snd", ScriptError::Syntax(1)),
    ("reg 16 new_data rcv do drop", ScriptError::Syntax(1)),
    ("reg 16 packet snd", ScriptError::UnknownName(1)),
    ("reg 16 Start snd", ScriptError::UnknownName(1)),
    ("reg 16 _x snd", ScriptError::Syntax(1)),
    ("reg 16 -1 snd", ScriptError::Syntax(1)),
    ("reg 16 257 snd", ScriptError::Syntax(1)),
    ("reg 16 7 snd", ScriptError::NoSuchNumber(1)),
    ("reg 16 pkt_in", ScriptError::Syntax(1)),
    ("reg 16 pkt_in snd peek 257", ScriptError::Syntax(1)),
    (
        "reg 16 pkt_in snd peekat 1099511627776 1",
        ScriptError::Syntax(1),
    ),
    ("reg 16 pkt_in snd peek 1 off", ScriptError::Syntax(1)),
    ("reg 16 pkt_in snd do", ScriptError::Syntax(1)),
    ("reg 16 pkt_in snd do drop drop", ScriptError::Syntax(1)),
    (
        "reg 16 pkt_in snd do on 1 on 2 on 3 off 1 off 2",
        ScriptError::Syntax(1),
    ),
    ("reg 16 state snd\nreg 16 7 snd", ScriptError::Duplicate(2)),
    ("unreg 1\nunreg 1", ScriptError::NoSuchNumber(2)),
    ("unreg 0", ScriptError::Syntax(1)),
    (
        "event 1 under pkt_in true\nevent 1 under 9 true",
        ScriptError::Duplicate(2),
    ),
    ("event 5 under 5 true", ScriptError::NoSuchNumber(1)),
    ("event 1 under pkt_in", ScriptError::Syntax(1)),
    ("event 1 pkt_in true", ScriptError::Syntax(1)),
    ("event 1 under pkt_in lem > 3", ScriptError::UnknownName(1)),
    (
        "event 1 under pkt_in len > 18446744073709551616",
        ScriptError::Syntax(1),
    ),
    (
        "event 1 under pkt_in !!!!!!!!!!!!!!!!!!!!!!!!!!!!!!!!!true",
        ScriptError::TooDeep(1),
    ),
    ("rbuf 0", ScriptError::Syntax(1)),
    ("rbuf 1048577", ScriptError::Syntax(1)),
    ("rbuf 01", ScriptError::Syntax(1)),
    ("rbuf 1 2", ScriptError::Syntax(1)),
    ("idle 0", ScriptError::Syntax(1)),
    ("idle 4294967296", ScriptError::Syntax(1)),
    ("idle", ScriptError::Syntax(1)),
    ("idle 10 s", ScriptError::Syntax(1)),
    ("reg 16 timer snd", ScriptError::Syntax(1)),
    ("reg 16 timer rcv do drop", ScriptError::Syntax(1)),
    (
        "event 1 under timer true\nreg 16 1 snd",
        ScriptError::Syntax(2),
    ),
    ("reg 16 timers rcv", ScriptError::UnknownName(1)),
    ("policy middle", ScriptError::Syntax(1)),
    ("rule 1 allow 10.0.0.256/8 any any", ScriptError::Syntax(1)),
    ("rule 1 allow a.0.0.1/8 any any", ScriptError::Syntax(1)),
    ("rule 1 allow 10.0.0.1/33 any any", ScriptError::Syntax(1)),
    ("rule 1 deny any any 80-79", ScriptError::Syntax(1)),
    ("rule 1 deny any any 65536", ScriptError::Syntax(1)),
    (
        "rule 1 deny any any any\nrule 1 allow any any any",
        ScriptError::Duplicate(2),
    ),
    ("unrule 1", ScriptError::NoSuchNumber(1)),
    ("at 5 rbuf 10\nrbuf 20", ScriptError::StampOrder(2)),
    ("at 4294967296 rbuf 1", ScriptError::Syntax(1)),
    ("live at 1 rbuf 1", ScriptError::Syntax(1)),
    ("at 1", ScriptError::Syntax(1)),
    ("\n# a comment \u{7f}\n \t\nrbuf 0", ScriptError::Syntax(4)),
    ("rbuf 1\r\nrbuf\r2\n", ScriptError::Syntax(2)),
    (
        "event 1 under pkt_in true\nevent 2 under 1 true\nevent 3 under 2 true\nevent 4 under 3 true\n\
        event 5 under 4 true\nevent 6 under 5 true\nevent 7 under 6 true\nevent 8 under 7 true",
        ScriptError::TooDeep(8),
    ),
];

#[test]
fn scripts_that_are_refused(rt: HostRuntime) {
    for &(text, refusal) in REFUSED {
        assert!(rt;
            script_of(rt.alloc(), text).err() == Some(refusal),
            "{text}"
        );
    }
}

// So many commands, and then a text. The number of the script's commands, or why it is refused.
fn read_many(alloc: Global, count: u16, rest: &str) -> Result<u32, ScriptError> {
    let mut text = String::new(alloc);
    for _ in 0..count {
        text.push_str("rbuf 1\n")?;
    }
    text.push_str(rest)?;
    let script = script_of(alloc, &text)?;
    Ok(script.len())
}

const SEVEN_DEEP: &str =
    "event 1 under pkt_in true\nevent 2 under 1 true\nevent 3 under 2 true\nevent 4 under 3 true\n\
    event 5 under 4 true\nevent 6 under 5 true\nevent 7 under 6 true\n";

// So many commands, and the text behind them: a path of eight events with its root, and 4,096 commands at most.
const LONGEST: &[(&str, u16, &str, Result<u32, ScriptError>)] = &[
    ("seven events", 0, SEVEN_DEEP, Ok(7)),
    ("4096 commands", 4096, "", Ok(4096)),
    (
        "4097 commands",
        4096,
        "# no command\nrbuf 1",
        Err(ScriptError::TooMany(4098)),
    ),
];

#[test]
fn the_longest_scripts(rt: HostRuntime) {
    for &(name, count, rest, outcome) in LONGEST {
        assert!(rt; read_many(rt.alloc(), count, rest) == outcome, "{name}");
    }
}

// A packet's number, its floor, and its ceiling.
const BOUNDS: &[(&str, u64, u32, u32)] = &[
    ("packet 0", 0, 0, 1),
    ("before the first stamp", 4, 0, 1),
    ("at the first stamp", 5, 2, 3),
    ("before the second stamp", 8, 2, 3),
    ("at the second stamp", 9, 4, 4),
    ("packet 1048575", 1_048_575, 4, 4),
];

// The stamp of a place.
const STAMPS: &[(&str, u32, Option<Stamp>)] = &[
    ("first command", 0, Some(Stamp::Live)),
    ("second command", 1, Some(Stamp::At(5))),
    ("behind the last", 4, None),
];

// A script of four commands, two of them live.
fn stamped(alloc: Global) -> Result<Script, ScriptError> {
    script_of(
        alloc,
        "live rbuf 10\nat 5 rbuf 20\nlive rbuf 30\nat 9 rbuf 40",
    )
}

fn is_bounded(alloc: Global, n: u64, floor: u32, ceil: u32) -> bool {
    match stamped(alloc) {
        Ok(script) => script.floor(n) == floor && script.ceil(n) == ceil,
        Err(_) => false,
    }
}

#[test]
fn floors_and_ceilings(rt: HostRuntime) {
    for &(name, n, floor, ceil) in BOUNDS {
        assert!(rt; is_bounded(rt.alloc(), n, floor, ceil), "{name}");
    }
}

fn is_stamped(alloc: Global, place: u32, stamp: Option<Stamp>) -> bool {
    match stamped(alloc) {
        Ok(script) => {
            script.stamp(place) == stamp && script.command(place).is_some() == stamp.is_some()
        }
        Err(_) => false,
    }
}

#[test]
fn stamps_by_place(rt: HostRuntime) {
    for &(name, place, stamp) in STAMPS {
        assert!(rt; is_stamped(rt.alloc(), place, stamp), "{name}");
    }
}

// A command that sets a number or a rule.
const COMMANDS: &[(&str, &str, u32, Said)] = &[
    (
        "last of four",
        "live rbuf 10\nat 5 rbuf 20\nlive rbuf 30\nat 9 rbuf 40",
        3,
        Said::Buffer(40),
    ),
    ("least limit of idleness", "idle 1", 0, Said::Idle(1)),
    (
        "greatest limit of idleness",
        "rbuf 10\nlive idle 4294967295",
        1,
        Said::Idle(u32::MAX),
    ),
    ("net, any and a port", RULES, 0, Said::Rule(FIRST)),
    ("a whole net, a net and ports", RULES, 1, Said::Rule(SECOND)),
];

// What a command of a row says.
#[derive(Clone, Copy)]
enum Said {
    Buffer(u32),
    Idle(u32),
    Rule(Rule),
}

const RULES: &str =
    "rule 9 allow 010.000.0.255/32 any 443\nrule 10 deny 255.255.255.255/0 1.2.3.4/8 80-90";

const FIRST: Rule = Rule {
    number: 9,
    allow: true,
    src: 0x0a00_00ff,
    src_len: 32,
    dst: 0,
    dst_len: 0,
    low: 443,
    high: 443,
};

const SECOND: Rule = Rule {
    number: 10,
    allow: false,
    src: 0xffff_ffff,
    src_len: 0,
    dst: 0x0102_0304,
    dst_len: 8,
    low: 80,
    high: 90,
};

fn is_said(command: &Command, said: Said) -> bool {
    match (command, said) {
        (Command::Buffer(bytes), Said::Buffer(wanted)) => *bytes == wanted,
        (Command::Idle(seconds), Said::Idle(wanted)) => *seconds == wanted,
        (Command::AddRule(rule), Said::Rule(wanted)) => *rule == wanted,
        _ => false,
    }
}

fn says(alloc: Global, text: &str, place: u32, said: Said) -> bool {
    match script_of(alloc, text) {
        Ok(script) => match script.command(place) {
            Some(command) => is_said(command, said),
            None => false,
        },
        Err(_) => false,
    }
}

#[test]
fn commands_say_what_their_lines_do(rt: HostRuntime) {
    for &(name, text, place, said) in COMMANDS {
        assert!(rt; says(rt.alloc(), text, place, said), "{name}");
    }
}

const REGISTRATIONS: &str =
    "\treg 16  new_data rcv off peekat 1099511627775 256 do on 17 off 16 on 255\r\nreg 17 pkt_in snd do drop\n";

// These changes, each a number and whether it is switched on: four at most.
fn changes_of(rows: [(u8, bool); 3]) -> Changes {
    let mut changes = Changes::new();
    for (reg, on) in rows {
        if changes.as_slice().len() < 4 {
            changes.add(Change1 { reg, on });
        }
    }
    changes
}

// The registration with all parts but a drop.
fn first_reg() -> Reg {
    let peek = PeekSpec::At {
        off: 1_099_511_627_775,
        len: 256,
    };
    let action = Action {
        drop: false,
        changes: changes_of([(17, true), (16, false), (255, true)]),
    };
    Reg {
        peek,
        action,
        ..Reg::preset(16, NEW_DATA, Hook::Rcv, false)
    }
}

// The registration with nothing but a drop.
fn second_reg() -> Reg {
    let action = Action {
        drop: true,
        changes: Changes::new(),
    };
    Reg {
        action,
        ..Reg::preset(17, PKT_IN, Hook::Snd, true)
    }
}

fn is_reg(alloc: Global, place: u32, wanted: &Reg) -> bool {
    match script_of(alloc, REGISTRATIONS) {
        Ok(script) => match script.command(place) {
            Some(Command::Register(reg)) => reg == wanted,
            _ => false,
        },
        Err(_) => false,
    }
}

#[test]
fn all_parts_of_a_registration(rt: HostRuntime) {
    for (name, place, reg) in [
        ("all but a drop", 0, first_reg()),
        ("a drop", 1, second_reg()),
    ] {
        assert!(rt; is_reg(rt.alloc(), place, &reg), "{name}");
    }
}
