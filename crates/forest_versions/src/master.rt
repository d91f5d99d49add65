//! Presets and commands as they are in force: now, and at each version before.

ghost use Rattle.std.specs.Prelude.{◌≡◌, ◌+◌, ◌≤◌, ◌<◌, ℕ, List, [], ◌∷◌, ◌++◌, length, take, not, is_none, IsTrue, IfSome, IfOk, OnOk, OnErr, false, None, is_some};
ghost use Rattle.std.specs.List.{list_any};
ghost use Rattle.std.specs.Option.{option_copied};
ghost use Rattle.app_api.specs.declared.registration.Reg.{Reg as RegOf};
ghost use Rattle.app_api.specs.App.{are_rules};
ghost use Rattle.app_api.specs.Reg.{are_presets, peek_fits, reg_of};
ghost use Rattle.event_trees.specs.Stored.{Stores};
ghost use Rattle.event_trees.specs.Defs.{is_event};
ghost use Rattle.forest_versions.specs.declared.command.Command.{Command as CommandOf};
ghost use Rattle.forest_versions.specs.Changes.{ChangesTo, HoldsTree};
ghost use Rattle.forest_versions.specs.State.{ControlState, after, is_idle_limit};
ghost use Rattle.forest_versions.specs.Lawful.{is_lawful};
ghost use Rattle.forest_versions.specs.Past.{line_of, noted, AreBefore};
ghost use Rattle.forest_versions.specs.Timeline.{as_of};
ghost use Rattle.forest_versions.specs.Master.{AtVersion, HasForest, defs_of, Tells, StandsFor};

use crate::command::Command;
use crate::control::Control;
use crate::past::Past;
use crate::trees::{change, first_tree};
use app_api::{Reg, Rule};
use event_trees::Defs;
use reassembly::Policy;
use shared_forest::{Forests, Shared};
use std::alloc::{AllocError, Global};
use std::marker::Model;

/// What is in force after each command of a script.
///
/// The version is the number of commands that were given. Each look-up answers for a version up to the present one,
/// and takes no memory: a registration, the policy, the receive buffer and the limit of idleness are found in time by the
/// logarithm of the number of their changes. The tree of the registrations that are on now is kept in a store, which is lent to `new`
/// and to each `apply`.
#[derive(Drop)]
pub struct Master {
    control: Control,
    past: Past,
    forest: Shared,
    version: u32,
}

impl Model for Master {
    ghost use Rattle.forest_versions.specs.Master.{Versions, IsMaster};
    ghost use Rattle.forest_versions.specs.MasterCode.{versions_code};

    ghost Value = { Versions };

    ghost coded = { versions_code };

    ghost view = { λ m. record { version = m.version; forest = m.forest; now = m.control; past = m.past } };

    ghost invariant = { λ m. IsMaster (record { version = m.version; forest = m.forest; now = m.control; past = m.past }) };
}

impl Master {
    /// An application's presets, before the first command. An error is want of memory, and changes nothing.
    pub fn new<F: Forests>(alloc: Global, f: &mut F, presets: &[Reg]) -> Result<Master, AllocError>
        requires lawful { IsTrue (are_presets presets.now) }
        ensures stands { IfOk result (λ m. StandsFor m presets.now []) }
        ensures answered { IfOk result (λ m. F.answered f.new m.forest) }
        ensures forest { IfOk result (HasForest (F.content f.new)) }
        ensures stored { Stores F.ForestView f.old f.new result }
    {
        let control = Control::start(alloc, presets)?;
        control.sound();
        let past = Past::new(alloc, &control)?;
        let forest = first_tree(alloc, f, &control)?;
        Ok(Master {
            control,
            past,
            forest,
            version: 0,
        })
    }

    /// Gives a command, which may be given now, and which raises the version by one. The store is that of `new` and
    /// of each earlier `apply`, so it answered the tree. An error is want of memory, and changes nothing.
    pub fn apply<F: Forests>(
        &mut self,
        alloc: Global,
        f: &mut F,
        c: &Command,
    ) -> Result<(), AllocError>
        requires answered { F.answered f.old self.old.forest }
        requires forest { HasForest (F.content f.old) self.old }
        requires lawful { IsTrue (is_lawful self.old.now c.now) }
        requires below { self.old.version < 4096 }
        ensures stands { (presets : List RegOf) (commands : List CommandOf) → StandsFor self.old presets commands
            → OnOk result (StandsFor self.new presets (commands ++ c.now ∷ [])) }
        ensures version { OnOk result (self.new.version ≡ self.old.version + 1) }
        ensures now { OnOk result (self.new.now ≡ after self.old.now c.now) }
        ensures earlier { (v : ℕ) (s : ControlState) → v ≤ self.old.version
            → Tells self.old v s → Tells self.new v s }
        ensures answered { F.answered f.new self.new.forest }
        ensures forest { HasForest (F.content f.new) self.new }
        ensures stored { Stores F.ForestView f.old f.new result }
        ensures unchanged { OnErr result (self.new ≡ self.old) }
    {
        let next = self.version + 1;
        give(
            alloc,
            f,
            &mut self.control,
            &mut self.past,
            &mut self.forest,
            next,
            c,
        )?;
        self.control.sound();
        self.version = next;
        Ok(())
    }

    /// The number of commands so far, at most 4,096.
    pub fn version(&self) -> u32
        ensures version { result ≡ self.now.version }
        ensures most { result ≤ 4096 }
    {
        self.version
    }

    /// The tree of the registrations that are on now.
    pub fn forest(&self) -> &Shared
        ensures { result.now ≡ self.now.forest }
    {
        &self.forest
    }

    /// The user-defined events. Those of an earlier version are the first of them.
    pub fn defs(&self) -> &Defs
        ensures { result.now ≡ defs_of self.now }
    {
        self.control.defs()
    }

    /// What is in force now.
    pub fn control(&self) -> &Control
        ensures { result.now ≡ self.now.now }
    {
        &self.control
    }

    /// What is told of the present version is what is in force now.
    pub fn tells_the_present(&self)
        ensures { Tells self.now self.now.version self.now.now }
    {
        let _now = &self.control;
    }

    /// Something is told of each version.
    pub fn tells_each_version(&self)
        ensures { (v : ℕ) → (s : ControlState) × Tells self.now v s }
    {
        let _now = &self.control;
    }

    /// The registration of a number at a version. None where it isn't registered there.
    #[inline(always)]
    pub fn reg_at(&self, version: u32, number: u8) -> Option<&Reg>
        ensures reg { AtVersion self.now version (λ s. option_copied result ≡ reg_of s.regs number) }
        ensures line { option_copied result ≡ as_of (line_of self.now.past number) version }
        ensures number { IfSome result (λ r. r.now.number ≡ number) }
        ensures low { IfSome result (λ r. 1 ≤ r.now.number) }
        ensures event { IfSome result (λ r. IsTrue (is_event (defs_of self.now) r.now.event)) }
        ensures peek { IfSome result (λ r. IsTrue (peek_fits r.now.peek)) }
    {
        self.past.reg(version, number)
    }

    /// The receive buffer at a version, in bytes, 1 to 1,048,576.
    pub fn rbuf_at(&self, version: u32) -> u32
        ensures rbuf { AtVersion self.now version (λ s. result ≡ s.rbuf) }
        ensures low { 1 ≤ result }
        ensures high { result ≤ 1048576 }
    {
        self.past.rbuf(version)
    }

    /// The policy at a version.
    pub fn policy_at(&self, version: u32) -> Policy
        ensures { AtVersion self.now version (λ s. result ≡ s.policy) }
    {
        self.past.policy(version)
    }

    /// The rules at a version, by rising number.
    #[inline(always)]
    pub fn rules_at(&self, version: u32) -> &[Rule]
        ensures rules { AtVersion self.now version (λ s. result.now ≡ s.rules) }
        ensures rise { IsTrue (are_rules result.now) }
    {
        self.past.rules(version)
    }

    /// For how many seconds a connection may be silent that began at a version: what the last `idle` among as many
    /// commands says. None exactly where none of them is one.
    pub fn idle_at(&self, version: u32) -> Option<u32>
        ensures idle { AtVersion self.now version (λ s. result ≡ s.idle) }
        ensures none { (presets : List RegOf) (commands : List CommandOf) → StandsFor self.now presets commands
            → is_none result ≡ not (list_any is_idle_limit (take version commands)) }
    {
        self.past.idle(version)
    }

    /// Whether a connection that begins now may be silent for so many seconds only. Where it may be silent for ever, so
    /// may each that began earlier.
    pub fn is_timed(&self) -> bool
        ensures now { result ≡ is_some self.now.now.idle }
        ensures never { result ≡ false → (v : ℕ) (s : ControlState) → Tells self.now v s → s.idle ≡ None }
    {
        self.control.idle().is_some()
    }
}

// Gives a lawful command, which is in force from a version on: what is in force, the past and the tree change
// together. An error is want of memory, and changes nothing.
fn give<F: Forests>(
    alloc: Global,
    f: &mut F,
    control: &mut Control,
    past: &mut Past,
    forest: &mut Shared,
    from: u32,
    c: &Command,
) -> Result<(), AllocError>
    requires held { HoldsTree F.ForestView f.old control.old forest.old }
    requires lawful { IsTrue (is_lawful control.old c.now) }
    requires before { AreBefore past.old from }
    ensures made { ChangesTo control.old control.new (after control.old c.now) result }
    ensures noted { ChangesTo past.old past.new (noted from control.old.rules c.now past.old) result }
    ensures whole { length past.old.regs ≡ 256 }
    ensures held { HoldsTree F.ForestView f.new control.new forest.new }
    ensures stored { Stores F.ForestView f.old f.new result }
    ensures tree { OnErr result (forest.new ≡ forest.old) }
{
    past.whole();
    past.note(alloc, from, control.rules(), c)?;
    match change(alloc, f, control, forest, c) {
        Ok(()) => Ok(()),
        Err(refused) => {
            past.take_back(c);
            Err(refused)
        }
    }
}
