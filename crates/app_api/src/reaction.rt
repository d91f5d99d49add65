//! What a callback asks, and what becomes of its packet.

ghost use Rattle.std.specs.Prelude.{◌≡◌};

use crate::changes::Changes;

/// Who asked for a drop.
#[derive(Clone, Copy, Debug, PartialEq, Eq)]
pub enum Reason {
    /// The registration with this number.
    Reg(u8),
    /// The rule with this number, or 0 where no rule matched.
    Rule(u8),
}

/// What a callback asks.
#[derive(Clone, Copy, Debug, PartialEq, Eq)]
pub struct Reaction {
    /// Whether the packet is dropped, and why.
    pub drop: Option<Reason>,
    /// The changes that are made at the end of the raise in which they are asked.
    pub changes: Changes,
}

/// What becomes of a packet.
#[derive(Clone, Copy, Debug, PartialEq, Eq)]
pub enum Verdict {
    /// It passes.
    Pass,
    /// It is dropped, for the first reason that was asked.
    Drop(Reason),
}

impl Reaction {
    ghost use Rattle.app_api.specs.Reaction.{asks_nothing};

    /// A reaction that asks nothing.
    #[inline(always)]
    pub fn nothing() -> Reaction
        ensures { result ≡ asks_nothing }
    {
        Reaction {
            drop: None,
            changes: Changes::new(),
        }
    }
}
