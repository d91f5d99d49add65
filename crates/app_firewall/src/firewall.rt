//! The firewall as an application.

ghost use Rattle.std.specs.Prelude.{◌≡◌, ◌&&◌, ◌==◌, IsTrue};
ghost use Rattle.app_api.specs.App.{RestsAt};
ghost use Rattle.native_filters.specs.Hook.{is_hook};
ghost use Rattle.native_filters.specs.declared.facts.Hook.TheVariants.{Snd, Rcv};
ghost use Rattle.app_firewall.specs.Firewall.{firewall, firewall-lawful, firewall-rests, drops_by};

use crate::decision::decide;
use app_api::{App, Call, Changes, LogApp, Reaction, Reason, Reg, Rule, Tally};
use native_filters::Hook;

/// The class of an orphan that isn't TCP over IPv4 at all, as ARP.
const OTHER: u64 = 1;

/// Sees what the log application sees. It drops each packet of a connection that its rules don't allow, and each orphan but
/// those of class other. It counts the packets of a connection that passed and those that it dropped, and keeps the number of
/// the rule that decided last, 0 where none matched.
#[derive(Clone, Copy, Debug, PartialEq, Eq)]
pub struct FirewallApp;

#[tactic(auto, unfolding(crate::specs::Firewall::firewall))]
impl App for FirewallApp {
    ghost meaning = { λ _. firewall };

    ghost lawful = { λ _. firewall-lawful };

    fn preset(&self, number: u8) -> Option<Reg> {
        LogApp.preset(number)
    }

    fn fresh(&self) -> Tally {
        Tally::zeros()
    }

    fn react(&self, t: &mut Tally, call: &Call, rules: &[Rule]) -> Reaction {
        if is_snd_call(call, 1) {
            let (allow, number) = decide(rules, &call.facts);
            t.t0 = t.t0.wrapping_add(u64::from(allow));
            t.t1 = t.t1.wrapping_add(u64::from(!allow));
            t.t2 = u64::from(number);
            if allow {
                Reaction::nothing()
            } else {
                drops_by(number)
            }
        } else if is_snd_call(call, 3) && call.facts.class != OTHER {
            drops_by(0)
        } else {
            Reaction::nothing()
        }
    }

    fn rests_at(&self, hook: Hook) -> bool
        ensures rests { IsTrue result → RestsAt firewall hook }
        ensures receiver { result ≡ is_hook hook Rcv }
    {
        hook == Hook::Rcv
    }

    fn field(&self, i: u8, t: &Tally) -> Option<(&str, u64)> {
        match i {
            0 => Some(("passed", t.t0)),
            1 => Some(("dropped", t.t1)),
            2 => Some(("rule", t.t2)),
            _ => None,
        }
    }
}

// Whether a call is one of the preset of this number, at the sender.
fn is_snd_call(call: &Call, number: u8) -> bool
    ensures { result ≡ is_hook call.now.hook Snd && call.now.reg == number }
{
    call.hook == Hook::Snd && call.reg == number
}

// A reaction that asks to drop the packet, by a rule of this number.
fn drops_by(number: u8) -> Reaction
    ensures { result ≡ drops_by number }
{
    Reaction {
        drop: Some(Reason::Rule(number)),
        changes: Changes::new(),
    }
}
