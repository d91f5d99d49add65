//! Whose turn it is: the packets of all connections in the order of the capture.

ghost use Rattle.std.specs.Prelude.{◌≡◌, ◌+◌, ◌-◌, ◌*◌, ◌<◌, ◌≤◌, ◌⊎◌, min, List, [], ◌∷◌, drop, IfSome, MatchOption};
ghost use Rattle.capture_maker.specs.Turns.{all_steps, turns_from, turns_of};
ghost use Rattle.capture_maker.specs.declared.turns.Turn.{Turn};

use crate::step::{STEPS, Step};
use std::marker::Model;

// How many connections take each step together.
const GROUP: u32 = 16;

/// A connection, by its number from 0, and its step.
#[derive(Clone, Copy)]
pub struct Turn {
    pub step: Step,
    pub connection: u32,
}

// The turns that are left.
#[derive(Drop)]
pub(crate) struct Turns {
    // How many connections there are.
    count: u32,
    // The number of the group, and the next turn in it, its step by its place. Behind the last group nothing is left.
    group: u32,
    step: usize,
    connection: u32,
}

impl Model for Turns {
    ghost Value = { List Turn };

    ghost view = { λ t. turns_from t.count t.group (drop t.step all_steps) t.connection };

    ghost invariant = { λ t. (t.count ≤ 100000) × (16 * t.group ≤ t.connection) × (t.group ≤ 6250) × (t.step < 10)
        × ((t.connection < 16 * t.group + min 16 (t.count - 16 * t.group)) ⊎ ((t.count ≤ 16 * t.group) × (t.connection ≡ 16 * t.group))) };
}

impl Turns {
    // All turns of so many connections.
    pub(crate) fn new(count: u32) -> Self
        requires { count ≤ 100000 }
        ensures { result ≡ turns_of count }
    {
        Turns {
            count,
            group: 0,
            step: 0,
            connection: 0,
        }
    }

    // The next turn, which is then gone.
    pub(crate) fn take(&mut self) -> Option<Turn>
        ensures turn { MatchOption result ((self.old ≡ []) × (self.new ≡ []))
            (λ turn. self.old ≡ turn ∷ self.new) }
        ensures bound { IfSome result (λ turn. turn.connection < 100000) }
    {
        let first = GROUP * self.group;
        if first >= self.count {
            return None;
        }
        let turn = Turn {
            step: STEPS[self.step],
            connection: self.connection,
        };
        if self.connection + 1 < first + GROUP.min(self.count - first) {
            self.connection += 1;
        } else if self.step + 1 < STEPS.len() {
            self.step += 1;
            self.connection = first;
        } else {
            self.group += 1;
            self.step = 0;
            self.connection = first + GROUP;
        }
        Some(turn)
    }
}
