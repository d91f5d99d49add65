//! Retransmissions of each connection.

ghost use Rattle.std.specs.Prelude.{◌≡◌};
ghost use Rattle.app_traffic.specs.Rexmit.{rexmit, rexmit-lawful, switches_on};

use app_api::{App, Call, Change1, Changes, PKT_IN, REXMIT, Reaction, Reg, Rule, Tally};
use native_filters::Hook;

/// Counts the packets of a connection that bring bytes again, these bytes, and those among them that differ
/// from what was there. From the first such packet on it counts every packet that arrives.
#[derive(Clone, Copy, Debug, PartialEq, Eq)]
pub struct RexmitApp;

#[tactic(auto, unfolding(crate::specs::Rexmit::rexmit))]
impl App for RexmitApp {
    ghost meaning = { λ _. rexmit };

    ghost lawful = { λ _. rexmit-lawful };

    fn preset(&self, number: u8) -> Option<Reg> {
        match number {
            1 => Some(Reg::preset(1, REXMIT, Hook::Rcv, true)),
            2 => Some(Reg::preset(2, PKT_IN, Hook::Rcv, false)),
            _ => None,
        }
    }

    fn fresh(&self) -> Tally {
        Tally::zeros()
    }

    #[inline(always)]
    fn react(&self, t: &mut Tally, call: &Call, _rules: &[Rule]) -> Reaction {
        match (call.reg, call.hook) {
            (1, Hook::Rcv) => {
                t.t0 = t.t0.wrapping_add(1);
                t.t1 = t.t1.wrapping_add(call.facts.rexlen);
                t.t2 = t.t2.wrapping_add(call.facts.rexdiff);
                switches_on(2)
            }
            (2, Hook::Rcv) => {
                t.t3 = t.t3.wrapping_add(1);
                Reaction::nothing()
            }
            _ => Reaction::nothing(),
        }
    }

    fn field(&self, i: u8, t: &Tally) -> Option<(&str, u64)> {
        match i {
            0 => Some(("rex_pkts", t.t0)),
            1 => Some(("rex_bytes", t.t1)),
            2 => Some(("rex_diff", t.t2)),
            3 => Some(("later_pkts", t.t3)),
            _ => None,
        }
    }
}

// A reaction that asks to switch a registration on.
fn switches_on(number: u8) -> Reaction
    ensures { result ≡ switches_on number }
{
    let mut changes = Changes::new();
    changes.add(Change1 {
        reg: number,
        on: true,
    });
    Reaction {
        drop: None,
        changes,
    }
}
