//! What is in force for a connection.

ghost use Rattle.std.specs.Prelude.{◌≡◌, ◌≤◌, IsTrue, IfSome};
ghost use Rattle.std.specs.Option.{option_copied};
ghost use Rattle.app_api.specs.App.{are_rules};
ghost use Rattle.connection_core.specs.Registered.{IsRegistered};

use app_api::{Reg, Rule};
use event_trees::Defs;
use forest_versions::Master;
use reassembly::Policy;

/// What is in force for a connection: what the master tells of the connection's version.
#[derive(Clone, Copy)]
pub struct InForce<'a> {
    /// The commands so far.
    pub master: &'a Master,
    /// How many of them were given when the connection began.
    pub version: u32,
}

impl InForce<'_> {
    ghost use Rattle.forest_versions.specs.State.{ControlState};
    ghost use Rattle.connection_core.specs.InForce.{registered, defs_at, IsInForce};

    /// The registration of a number.
    #[inline(always)]
    pub(crate) fn reg_at(&self, number: u8) -> Option<&Reg>
        ensures reg { option_copied result ≡ registered self.now number }
        ensures number { IfSome result (λ r. r.now.number ≡ number) }
        ensures lawful { IfSome result (λ r. IsRegistered (defs_at self.now) r.now) }
    {
        self.master.reg_at(self.version, number)
    }

    /// The present definitions, by which registrations are called and trees are edited.
    pub(crate) fn defs(&self) -> &Defs
        ensures { result.now ≡ defs_at self.now }
    {
        self.master.defs()
    }

    /// The rules of the application.
    #[inline(always)]
    pub(crate) fn rules(&self) -> &[Rule]
        ensures rules { (s : ControlState) → IsInForce self.now s → result.now ≡ s.rules }
        ensures lawful { IsTrue (are_rules result.now) }
    {
        self.master.rules_at(self.version)
    }

    /// Which byte stays where segments overlap.
    pub(crate) fn policy(&self) -> Policy
        ensures { (s : ControlState) → IsInForce self.now s → result ≡ s.policy }
    {
        self.master.policy_at(self.version)
    }

    /// The receive buffer of each end, in bytes.
    pub(crate) fn rbuf(&self) -> u32
        ensures rbuf { (s : ControlState) → IsInForce self.now s → result ≡ s.rbuf }
        ensures least { 1 ≤ result }
        ensures most { result ≤ 1048576 }
    {
        self.master.rbuf_at(self.version)
    }
}
