//! Packets of which one thing is called at a hook, and that does nothing: it has only to be counted, and noted where entries
//! are kept, without facts and without a walk.

ghost use Rattle.std.specs.Prelude.{◌≡◌, IsTrue, IfSome};
ghost use Rattle.connection_core.specs.Trees.{IsForestInForce};
ghost use Rattle.connection_core.specs.Resting.{IsPlain, Rests, entry_at_rest};

use crate::hearing::lone_hearer;
use crate::terms::{FIRST_OF_SCRIPTS, Terms};
use app_api::{App, Entry, PKT_IN, PeekSpec, Reg, Seen};
use native_filters::Hook;
use shared_forest::Tree;

// Whether a registration is a preset that each packet calls, and that looks at nothing.
#[inline(always)]
fn is_plain(reg: &Reg) -> bool
    ensures { IsTrue result → IsPlain reg.now }
{
    reg.number < FIRST_OF_SCRIPTS && reg.event == PKT_IN && reg.peek == PeekSpec::Nothing
}

impl<A: App> Terms<'_, A> {
    /// The number of the registration of which this is so: all that a packet calls at a hook is this one, a preset which does
    /// nothing there.
    #[inline(always)]
    pub(crate) fn resting(&self, tree: &Tree, hook: Hook) -> Option<u8>
        requires forest { IsForestInForce self.now.in_force tree.now }
        ensures { IfSome result (λ number. Rests (A.meaning self.now.app.now) self.now.in_force tree.now hook number) }
    {
        if !self.app.rests_at(hook) {
            return None;
        }
        let Some(number) = lone_hearer(&self.in_force, tree, hook) else {
            return None;
        };
        match self.in_force.reg_at(number) {
            Some(reg) if is_plain(reg) => Some(number),
            _ => None,
        }
    }
}

/// What the report tells of the callback of such a registration, for the packet of this number.
#[inline(always)]
pub(crate) fn entry_at_rest(index: u64, hook: Hook, number: u8) -> Entry
    ensures { result ≡ entry_at_rest index hook number }
{
    Entry {
        index,
        hook,
        event: PKT_IN,
        reg: number,
        seen: Seen::Nothing,
    }
}
