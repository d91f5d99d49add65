//! The application: what it asks to be told, what it counts, and which registration it switches.

ghost use Rattle.std.specs.Prelude.{◌≡◌, ◌&&◌, ◌==◌};
ghost use Rattle.app_traffic.specs.Counting.{plus_if};
ghost use Rattle.stalls.specs.Windows.{asked_by, closed_after, closes, has_rst, side_of, stalls, stalls-lawful, switches};

use app_api::{App, Call, Change1, Changes, ERROR, PKT_IN, Reaction, Reg, Rule, Tally};
use native_filters::{Facts, Hook};

// Whose window is closed.
const NOBODY: u64 = 0;

const CLIENT: u64 = 1;

const SERVER: u64 = 2;

// The registration that is on while a window is closed.
const WHILE_CLOSED: u8 = 2;

/// Counts closed windows, and the packets that arrive meanwhile.
#[derive(Clone, Copy, Debug, PartialEq, Eq)]
pub struct Stalls;

#[tactic(auto, unfolding(crate::specs::Windows::stalls))]
impl App for Stalls {
    ghost meaning = { λ _. stalls };

    ghost lawful = { λ _. stalls-lawful };

    fn preset(&self, number: u8) -> Option<Reg> {
        match number {
            1 => Some(Reg::preset(1, PKT_IN, Hook::Snd, true)),
            2 => Some(Reg::preset(2, PKT_IN, Hook::Rcv, false)),
            3 => Some(Reg::preset(3, ERROR, Hook::Rcv, true)),
            _ => None,
        }
    }

    fn fresh(&self) -> Tally {
        Tally::zeros()
    }

    fn react(&self, t: &mut Tally, call: &Call, _rules: &[Rule]) -> Reaction {
        let facts = &call.facts;
        match (call.reg, call.hook) {
            (1, Hook::Snd) => watch(t, facts),
            (2, Hook::Rcv) => {
                t.t2 = t.t2.wrapping_add(1);
                Reaction::nothing()
            }
            (3, Hook::Rcv) => {
                t.t3 = t.t3.wrapping_add(facts.fault & 1);
                Reaction::nothing()
            }
            _ => Reaction::nothing(),
        }
    }

    fn field(&self, i: u8, t: &Tally) -> Option<(&str, u64)> {
        match i {
            0 => Some(("client_closed", t.t0)),
            1 => Some(("server_closed", t.t1)),
            2 => Some(("while_closed", t.t2)),
            3 => Some(("past_window", t.t3)),
            _ => None,
        }
    }
}

// Notes what window a packet advertises. While its sender's window is closed, the packets that arrive are counted.
fn watch(t: &mut Tally, facts: &Facts) -> Reaction
    ensures client { t.new.t0 ≡ plus_if (closes facts.now && side_of facts.now.dir == 1) t.old.t0 1 }
    ensures server { t.new.t1 ≡ plus_if (closes facts.now && side_of facts.now.dir == 2) t.old.t1 1 }
    ensures closed { t.new.t4 ≡ closed_after t.old facts.now }
    ensures others { t.new ≡ record t.old { t0 = t.new.t0; t1 = t.new.t1; t4 = t.new.t4 } }
    ensures asked { result ≡ asked_by t.old facts.now }
{
    let side = side_of(facts.dir);
    if has_rst(facts) {
        return Reaction::nothing();
    }
    if facts.win == 0 {
        if side == CLIENT {
            t.t0 = t.t0.wrapping_add(1);
        } else {
            t.t1 = t.t1.wrapping_add(1);
        }
        t.t4 = side;
        return switches(true);
    }
    if t.t4 == side {
        t.t4 = NOBODY;
        return switches(false);
    }
    Reaction::nothing()
}

// Who sent a packet of this direction.
fn side_of(dir: u64) -> u64
    ensures { result ≡ side_of dir }
{
    if dir == 0 { CLIENT } else { SERVER }
}

// Whether a segment has the control bit RST (RFC 9293, 3.1).
fn has_rst(facts: &Facts) -> bool
    ensures { result ≡ has_rst facts.now }
{
    facts.flags & 4 == 4
}

// A reaction that switches the count of packets that arrive while a window is closed.
fn switches(on: bool) -> Reaction
    ensures { result ≡ switches on }
{
    let mut changes = Changes::new();
    changes.add(Change1 {
        reg: WHILE_CLOSED,
        on,
    });
    Reaction {
        drop: None,
        changes,
    }
}
