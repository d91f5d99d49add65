//! Accounting: packets, bytes and states of each connection.

ghost use Rattle.std.specs.Prelude.{◌≡◌};
ghost use Rattle.app_traffic.specs.Acct.{acct, acct-lawful};

use app_api::{App, Call, END, NEW_DATA, PKT_IN, Reaction, Reg, Rule, STATE, Tally};
use native_filters::Hook;

// Directions: up from the client, and down from the server.
const UP: u64 = 0;

const DOWN: u64 = 1;

/// Counts, for each direction of a connection, its packets and the bytes of their payload at their sender,
/// keeps where its stream stands, and the state of each end. "Up" is from the client. It asks nothing.
#[derive(Clone, Copy, Debug, PartialEq, Eq)]
pub struct AcctApp;

#[tactic(auto, unfolding(crate::specs::Acct::acct))]
impl App for AcctApp {
    ghost meaning = { λ _. acct };

    ghost lawful = { λ _. acct-lawful };

    fn preset(&self, number: u8) -> Option<Reg> {
        match number {
            1 => Some(Reg::preset(1, PKT_IN, Hook::Snd, true)),
            2 => Some(Reg::preset(2, NEW_DATA, Hook::Rcv, true)),
            3 => Some(Reg::preset(3, STATE, Hook::Snd, true)),
            4 => Some(Reg::preset(4, STATE, Hook::Rcv, true)),
            5 => Some(Reg::preset(5, END, Hook::Rcv, true)),
            _ => None,
        }
    }

    fn fresh(&self) -> Tally {
        Tally {
            t7: 1,
            ..Tally::zeros()
        }
    }

    #[inline(always)]
    fn react(&self, t: &mut Tally, call: &Call, _rules: &[Rule]) -> Reaction {
        let facts = &call.facts;
        match (call.reg, call.hook, facts.dir) {
            (1, Hook::Snd, UP) => {
                t.t0 = t.t0.wrapping_add(1);
                t.t1 = t.t1.wrapping_add(facts.len);
            }
            (1, Hook::Snd, DOWN) => {
                t.t3 = t.t3.wrapping_add(1);
                t.t4 = t.t4.wrapping_add(facts.len);
            }
            (2, Hook::Rcv, UP) => t.t2 = facts.next,
            (2, Hook::Rcv, DOWN) => t.t5 = facts.next,
            (3, Hook::Snd, UP) | (4, Hook::Rcv, DOWN) => t.t6 = facts.new,
            (3, Hook::Snd, DOWN) | (4, Hook::Rcv, UP) => t.t7 = facts.new,
            _ => {}
        }
        Reaction::nothing()
    }

    fn field(&self, i: u8, t: &Tally) -> Option<(&str, u64)> {
        match i {
            0 => Some(("up_pkts", t.t0)),
            1 => Some(("up_bytes", t.t1)),
            2 => Some(("up_new", t.t2)),
            3 => Some(("down_pkts", t.t3)),
            4 => Some(("down_bytes", t.t4)),
            5 => Some(("down_new", t.t5)),
            6 => Some(("client_state", t.t6)),
            7 => Some(("server_state", t.t7)),
            _ => None,
        }
    }
}
