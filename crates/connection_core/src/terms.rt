//! What callbacks run under: the application, what is in force, and whether entries are kept.

ghost use Rattle.std.specs.Prelude.{◌≡◌, IsTrue};
ghost use Rattle.connection_core.specs.InForce.{ForControl};
ghost use Rattle.connection_core.specs.PacketUnderWay.{reaction_of, asked_by};
ghost use Rattle.connection_core.specs.Standing.{call_with};

use crate::arrival::RaiseAt;
use crate::in_force::InForce;
use app_api::{App, Call, Reaction, Reason, Reg, Tally};
use native_filters::NativeBook;
use std::alloc::Global;

/// What callbacks run under.
#[derive(Drop)]
pub struct Terms<'a, A> {
    /// Where memory is taken.
    pub alloc: Global,
    pub app: &'a A,
    /// What is in force for the connection.
    pub in_force: InForce<'a>,
    pub natives: &'a NativeBook,
    /// Whether entries are kept.
    pub keep: bool,
}

/// Registrations below this number are presets.
pub(crate) const FIRST_OF_SCRIPTS: u8 = 16;

impl<A: App> Terms<'_, A> {
    /// Runs a callback that saw so many bytes: a preset's application, or the action of a script's registration. An
    /// application alone is told the facts.
    #[inline(always)]
    pub(crate) fn react(
        &self,
        raise_at: &RaiseAt,
        reg: &Reg,
        got: u32,
        tally: &mut Tally,
    ) -> Reaction
        ensures tally { ForControl self.now.in_force (λ s.
            tally.new ≡ (reaction_of (A.meaning self.now.app.now) s.rules reg.now (call_with raise_at.now reg.now got) tally.old).0) }
        ensures reaction { ForControl self.now.in_force (λ s.
            result ≡ (reaction_of (A.meaning self.now.app.now) s.rules reg.now (call_with raise_at.now reg.now got) tally.old).1) }
    {
        if reg.number < FIRST_OF_SCRIPTS {
            let call = call_with(raise_at, reg, got);
            self.app.react(tally, &call, self.in_force.rules())
        } else {
            asked_by(reg)
        }
    }
}

// The call as the application sees it.
#[inline(always)]
fn call_with(raise_at: &RaiseAt, reg: &Reg, got: u32) -> Call
    ensures { result ≡ call_with raise_at.now reg.now got }
{
    Call {
        reg: reg.number,
        hook: raise_at.hook,
        event: reg.event,
        facts: raise_at.source.facts(),
        got,
    }
}

// What the action of a script's registration asks.
fn asked_by(reg: &Reg) -> Reaction
    ensures { result ≡ asked_by reg.now }
{
    Reaction {
        drop: reg.action.drop.then_some(Reason::Reg(reg.number)),
        changes: reg.action.changes,
    }
}
