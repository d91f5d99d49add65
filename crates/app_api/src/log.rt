//! The application that only logs.

ghost use Rattle.std.specs.Prelude.{IsTrue};
ghost use Rattle.app_api.specs.App.{RestsAt};
ghost use Rattle.app_api.specs.Log.{log, log-lawful, log-rests};

use crate::app::{App, Call, Tally};
use crate::events::{ORPHAN, PKT_IN};
use crate::reaction::Reaction;
use crate::registration::Reg;
use crate::rule::Rule;
use native_filters::Hook;

/// Sees every packet at both sides and every orphan. It keeps nothing and asks nothing.
#[derive(Clone, Copy, Debug, PartialEq, Eq)]
pub struct LogApp;

#[tactic(auto, unfolding(crate::specs::Log::log))]
impl App for LogApp {
    ghost meaning = { λ _. log };

    ghost lawful = { λ _. log-lawful };

    fn preset(&self, number: u8) -> Option<Reg> {
        match number {
            1 => Some(Reg::preset(1, PKT_IN, Hook::Snd, true)),
            2 => Some(Reg::preset(2, PKT_IN, Hook::Rcv, true)),
            3 => Some(Reg::preset(3, ORPHAN, Hook::Snd, true)),
            _ => None,
        }
    }

    fn fresh(&self) -> Tally {
        Tally::zeros()
    }

    #[inline(always)]
    fn react(&self, _t: &mut Tally, _call: &Call, _rules: &[Rule]) -> Reaction {
        Reaction::nothing()
    }

    #[inline(always)]
    fn rests_at(&self, hook: Hook) -> bool
        ensures rests { IsTrue result → RestsAt log hook }
        ensures yes { IsTrue result }
    {
        let _ = hook;
        true
    }

    fn field(&self, _i: u8, _t: &Tally) -> Option<(&str, u64)> {
        None
    }
}
