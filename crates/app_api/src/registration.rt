//! Registrations: which raise calls whom, what is peeked at first, and what is done.

ghost use Rattle.std.specs.Prelude.{◌≡◌};

use crate::changes::Changes;
use native_filters::Hook;

/// What a callback reads of the stream in the direction of its packet before it runs.
#[derive(Clone, Copy, Debug, PartialEq, Eq)]
pub enum PeekSpec {
    /// Nothing.
    Nothing,
    /// The next bytes after the stream's mark, at most `len` of them (1 to 256).
    Next { len: u16 },
    /// The kept bytes from position `off` (at most 1,099,511,627,775) to `off + len - 1`.
    At { off: u64, len: u16 },
}

/// What a registration of a script does when it is called.
#[derive(Clone, Copy, Debug, PartialEq, Eq)]
pub struct Action {
    /// Whether the packet is dropped. Only a registration at the sender's side may ask it.
    pub drop: bool,
    /// The changes that are made at the end of the raise in which they are asked.
    pub changes: Changes,
}

/// A registration.
#[derive(Clone, Copy, Debug, PartialEq, Eq)]
pub struct Reg {
    /// Its number: 1 to 15 for presets of the application, 16 to 255 for scripts.
    pub number: u8,
    /// The number of its event.
    pub event: u16,
    /// The side at which it is called.
    pub hook: Hook,
    /// Whether it is on at a connection's start.
    pub on: bool,
    /// What it reads first.
    pub peek: PeekSpec,
    /// What it does. A preset runs its application instead.
    pub action: Action,
}

impl Reg {
    ghost use Rattle.app_api.specs.Reg.{preset_reg};

    /// A preset without a peek.
    pub fn preset(number: u8, event: u16, hook: Hook, on: bool) -> Reg
        ensures { result ≡ preset_reg number event hook on }
    {
        Reg {
            number,
            event,
            hook,
            on,
            peek: PeekSpec::Nothing,
            action: Action {
                drop: false,
                changes: Changes::new(),
            },
        }
    }
}
