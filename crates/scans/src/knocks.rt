//! The application: what it asks to be told, and what it counts.

ghost use Rattle.std.specs.Prelude.{◌≡◌};
ghost use Rattle.scans.specs.Knocks.{has_rst, knocks, knocks-lawful};

use app_api::{App, Call, PKT_IN, Reaction, Reg, Rule, STATE, Tally};
use native_filters::{Facts, Hook, is_opening};

// Who sent the packet of a call.
const CLIENT: u64 = 0;

const SERVER: u64 = 1;

// The number of the state ESTABLISHED.
const ESTABLISHED: u64 = 4;

/// Counts the SYNs of each connection's client, and notes what its server made of them. It asks nothing.
#[derive(Clone, Copy, Debug, PartialEq, Eq)]
pub struct Scans;

#[tactic(auto, unfolding(crate::specs::Knocks::knocks, native_filters::specs::Native::native))]
impl App for Scans {
    ghost meaning = { λ _. knocks };

    ghost lawful = { λ _. knocks-lawful };

    fn preset(&self, number: u8) -> Option<Reg> {
        match number {
            1 => Some(Reg::preset(1, PKT_IN, Hook::Snd, true)),
            2 => Some(Reg::preset(2, STATE, Hook::Snd, true)),
            3 => Some(Reg::preset(3, STATE, Hook::Rcv, true)),
            _ => None,
        }
    }

    fn fresh(&self) -> Tally {
        Tally::zeros()
    }

    fn react(&self, t: &mut Tally, call: &Call, _rules: &[Rule]) -> Reaction {
        let facts = &call.facts;
        match (call.reg, call.hook, facts.dir) {
            (1, Hook::Snd, CLIENT) => {
                if is_opening(facts) {
                    t.t0 = t.t0.wrapping_add(1);
                }
            }
            (1, Hook::Snd, SERVER) => {
                t.t1 = 1;
                if has_rst(facts) {
                    t.t2 = 1;
                }
            }
            (2, Hook::Snd, SERVER) | (3, Hook::Rcv, CLIENT) => {
                if facts.new == ESTABLISHED {
                    t.t3 = 1;
                }
            }
            _ => {}
        }
        Reaction::nothing()
    }

    fn field(&self, i: u8, t: &Tally) -> Option<(&str, u64)> {
        if t.t3 != 0 {
            return None;
        }
        match i {
            0 => Some(("syns", t.t0)),
            1 => Some(("refused", t.t2)),
            2 => Some(("silent", u64::from(t.t1 == 0))),
            _ => None,
        }
    }
}

// Whether a segment has the control bit RST (RFC 9293, 3.1).
fn has_rst(facts: &Facts) -> bool
    ensures { result ≡ has_rst facts.now }
{
    facts.flags & 4 == 4
}
