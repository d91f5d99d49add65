//! What is in force for the connections that begin now.

ghost use Rattle.std.specs.Prelude.{◌≡◌, ◌≤◌, ◌++◌, [], ◌∷◌, List, IsTrue, IfOk, Some, None};
ghost use Rattle.std.specs.Option.{option_copied};
ghost use Rattle.std.specs.List.{All};
ghost use Rattle.app_api.specs.Reg.{are_presets, reg_of, peek_fits};
ghost use Rattle.app_api.specs.declared.registration.Reg.{Reg as RegOf};
ghost use Rattle.shared_forest.specs.Listing.{Shown};
ghost use Rattle.event_trees.specs.Defs.{IsAddable};
ghost use Rattle.event_trees.specs.Edit.{IsForestOf};
ghost use Rattle.event_trees.specs.Private.{IsPrivate, without};
ghost use Rattle.forest_versions.specs.Rules.{rule_of, put_rule, without_rule};
ghost use Rattle.forest_versions.specs.State.{presets_in, start, after, registered, withdrawn};
ghost use Rattle.forest_versions.specs.Lawful.{refusal, is_lawful, is_setting, IsRegistrable};
ghost use Rattle.forest_versions.specs.Changes.{ChangesTo};
ghost use Rattle.forest_versions.specs.Sound.{IsSound};

use crate::checks::{event_refusal, find_reg, missing, reg_refusal, taken};
use crate::command::Command;
use crate::ranges::is_within;
use crate::refusal::Refusal;
use crate::rules::{RuleList, find_rule};
use app_api::{ActiveList, Reg, Rule};
use event_trees::{Defs, EventDef, later_events_change_nothing, switch};
use reassembly::Policy;
use std::alloc::{AllocError, Global};
use std::marker::Model;

/// The receive buffer before a command sets it, in bytes.
const FIRST_BUFFER: u32 = 65_536;

/// The definitions, registrations, policy, receive buffer, rules and limit of idleness that are in force.
#[derive(Drop)]
pub struct Control {
    defs: Defs,
    regs: ActiveList,
    policy: Policy,
    rbuf: u32,
    rules: RuleList,
    idle: Option<u32>,
}

impl Model for Control {
    ghost use Rattle.forest_versions.specs.State.{ControlState};
    ghost use Rattle.forest_versions.specs.StateCode.{state_code};

    ghost Value = { ControlState };

    ghost coded = { state_code };

    ghost use Rattle.forest_versions.specs.Sound.{IsSound};

    ghost view = { λ c. record { defs = c.defs; regs = c.regs; policy = c.policy; rbuf = c.rbuf; rules = c.rules; idle = c.idle } };

    ghost invariant = { λ c. IsSound (record { defs = c.defs; regs = c.regs; policy = c.policy; rbuf = c.rbuf; rules = c.rules; idle = c.idle }) };
}

impl Control {
    /// What is in force before the first command: the presets of an application.
    #[tactic(auto, unfolding(crate::specs::State::start))]
    pub fn start(alloc: Global, presets: &[Reg]) -> Result<Control, AllocError>
        requires lawful { IsTrue (are_presets presets.now) }
        ensures ok { IfOk result (λ c. c ≡ start presets.now) }
    {
        let defs = Defs::new(alloc);
        let regs = presets_in(alloc, &defs, presets)?;
        Ok(Control {
            defs,
            regs,
            policy: Policy::First,
            rbuf: FIRST_BUFFER,
            rules: RuleList::new(alloc),
            idle: None,
        })
    }

    /// Why a command can't be given now. None where it may be given.
    #[tactic(auto, unfolding(crate::specs::Lawful::refusal))]
    pub fn refusal(&self, c: &Command) -> Option<Refusal>
        ensures { result ≡ refusal self.now c.now }
    {
        match c {
            Command::Event(d) => event_refusal(&self.defs, d),
            Command::Register(r) => reg_refusal(&self.defs, self.regs.as_slice(), r),
            Command::Unregister(number) => missing(self.reg(*number).is_some()),
            Command::Buffer(_) => None,
            Command::Overlap(_) => None,
            Command::AddRule(r) => taken(self.rule(r.number).is_some()),
            Command::RemoveRule(number) => missing(self.rule(*number).is_some()),
            Command::Idle(_) => None,
        }
    }

    /// Whether a command may be given now.
    #[tactic(auto, unfolding(crate::specs::Lawful::is_lawful))]
    pub fn is_lawful(&self, c: &Command) -> bool
        ensures { result ≡ is_lawful self.now c.now }
    {
        is_within(c) && self.refusal(c).is_none()
    }

    /// Gives a lawful command. An error is want of memory, and changes nothing.
    pub fn apply(&mut self, alloc: Global, c: &Command) -> Result<(), AllocError>
        requires lawful { IsTrue (is_lawful self.old c.now) }
        ensures { ChangesTo self.old self.new (after self.old c.now) result }
    {
        match c {
            Command::Event(d) => self.define(alloc, d),
            Command::Register(r) => self.register(r),
            Command::Unregister(number) => {
                self.withdraw(*number);
                Ok(())
            }
            Command::Buffer(_) => self.set(c),
            Command::Overlap(_) => self.set(c),
            Command::AddRule(_) => self.set(c),
            Command::RemoveRule(_) => self.set(c),
            Command::Idle(_) => self.set(c),
        }
    }

    /// What is true of it at any time.
    pub fn sound(&self)
        ensures { IsSound self.now }
    {
        let _defs = &self.defs;
    }

    /// The user-defined events.
    pub fn defs(&self) -> &Defs
        ensures { result.now ≡ self.now.defs }
    {
        &self.defs
    }

    /// The registrations in the order in which they are called, those that are off included.
    pub fn regs(&self) -> &[Reg]
        ensures { result.now ≡ self.now.regs }
    {
        self.regs.as_slice()
    }

    /// Which byte stays where a segment brings another one.
    pub fn policy(&self) -> Policy
        ensures { result ≡ self.now.policy }
    {
        self.policy
    }

    /// The receive buffer in bytes.
    pub fn rbuf(&self) -> u32
        ensures { result ≡ self.now.rbuf }
    {
        self.rbuf
    }

    /// The rules by number.
    pub fn rules(&self) -> &RuleList
        ensures { result.now ≡ self.now.rules }
    {
        &self.rules
    }

    /// For how many seconds a connection may be silent. None where no command said so.
    pub fn idle(&self) -> Option<u32>
        ensures { result ≡ self.now.idle }
    {
        self.idle
    }

    /// The registration of a number.
    pub fn reg(&self, number: u8) -> Option<&Reg>
        ensures { option_copied result ≡ reg_of self.now.regs number }
    {
        find_reg(self.regs.as_slice(), number)
    }

    // The rule of a number.
    fn rule(&self, number: u8) -> Option<&Rule>
        ensures { option_copied result ≡ rule_of self.now.rules number }
    {
        find_rule(self.rules.as_slice(), number)
    }

    /// Defines an event. Trees stay as they are.
    pub(crate) fn define(&mut self, alloc: Global, d: &EventDef) -> Result<(), AllocError>
        requires { IsAddable self.old.defs d.now }
        ensures made { ChangesTo self.old self.new (record self.old { defs = self.old.defs ++ d.now ∷ [] }) result }
        ensures trees { (list : List RegOf) (shown : List Shown)
            → IsForestOf self.old.defs list shown → IsForestOf self.new.defs list shown }
        ensures regs { self.new.regs ≡ self.old.regs }
    {
        let filter = d.filter.copy(alloc)?;
        self.defs.add(EventDef {
            number: d.number,
            parent: d.parent,
            filter,
        })?;
        self.defs.paths();
        later_events_change_nothing(&self.defs);
        Ok(())
    }

    /// Adds a registration at its place.
    pub(crate) fn register(&mut self, r: &Reg) -> Result<(), AllocError>
        requires { IsRegistrable self.old r.now }
        ensures { ChangesTo self.old self.new (registered self.old r.now) result }
    {
        switch(&self.defs, &mut self.regs, r, true)
    }

    /// Removes the registration of a number, if there is one.
    pub(crate) fn withdraw(&mut self, number: u8)
        ensures { self.new ≡ withdrawn self.old number }
    {
        remove_reg(&mut self.regs, number);
    }

    /// Gives a lawful command that leaves events and registrations as they are.
    #[tactic(auto, unfolding(crate::specs::State::after))]
    pub(crate) fn set(&mut self, c: &Command) -> Result<(), AllocError>
        requires lawful { IsTrue (is_lawful self.old c.now) }
        requires setting { IsTrue (is_setting c.now) }
        ensures made { ChangesTo self.old self.new (after self.old c.now) result }
        ensures defs { self.new.defs ≡ self.old.defs }
        ensures regs { self.new.regs ≡ self.old.regs }
    {
        match c {
            Command::Buffer(bytes) => {
                self.set_buffer(*bytes);
                Ok(())
            }
            Command::Overlap(policy) => {
                self.set_policy(*policy);
                Ok(())
            }
            Command::AddRule(rule) => self.add_rule(rule),
            Command::RemoveRule(number) => {
                self.remove_rule(*number);
                Ok(())
            }
            Command::Idle(seconds) => {
                self.set_idle(*seconds);
                Ok(())
            }
            _ => Ok(()),
        }
    }

    fn set_buffer(&mut self, bytes: u32)
        requires low { 1 ≤ bytes }
        requires high { bytes ≤ 1048576 }
        ensures { self.new ≡ record self.old { rbuf = bytes } }
    {
        self.rbuf = bytes;
    }

    fn set_policy(&mut self, policy: Policy)
        ensures { self.new ≡ record self.old { policy = policy } }
    {
        self.policy = policy;
    }

    fn add_rule(&mut self, rule: &Rule) -> Result<(), AllocError>
        requires low { 1 ≤ rule.now.number }
        requires absent { rule_of self.old.rules rule.now.number ≡ None }
        ensures { ChangesTo self.old self.new (record self.old { rules = put_rule rule.now self.old.rules }) result }
    {
        self.rules.put(*rule)
    }

    fn remove_rule(&mut self, number: u8)
        ensures { self.new ≡ record self.old { rules = without_rule number self.old.rules } }
    {
        self.rules.remove(number);
    }

    fn set_idle(&mut self, seconds: u32)
        ensures { self.new ≡ record self.old { idle = Some seconds } }
    {
        self.idle = Some(seconds);
    }
}

// The presets, each at its place.
fn presets_in(alloc: Global, defs: &Defs, presets: &[Reg]) -> Result<ActiveList, AllocError>
    requires none { defs.now ≡ [] }
    requires lawful { IsTrue (are_presets presets.now) }
    ensures listed { IfOk result (λ regs. regs ≡ presets_in presets.now) }
    ensures private { IfOk result (λ regs. IsPrivate [] regs) }
    ensures peeks { IfOk result (λ regs. All (λ r. IsTrue (peek_fits r.peek)) regs) }
{
    let mut regs = ActiveList {
        items: Vec::new(alloc),
    };
    for reg in presets {
        switch(defs, &mut regs, reg, true)?;
    }
    Ok(regs)
}

// Removes the registration of a number, if there is one.
fn remove_reg(regs: &mut ActiveList, number: u8)
    ensures { regs.new ≡ without number regs.old }
{
    regs.items.retain(|r| r.number != number);
}
