//! What was in force at each version: the changes of each registration, of the policy, the receive buffer, the
//! rules and the limit of idleness. A command adds one change, so the past takes memory by the number of commands; but rules are kept as whole
//! lists, since they are lent as such.

ghost use Rattle.std.specs.Prelude.{◌≡◌, ◌≤◌, ℕ, Option, length, slice_index_or, IfOk};
ghost use Rattle.std.specs.Option.{option_copied};
ghost use Rattle.app_api.specs.Reg.{reg_of};
ghost use Rattle.forest_versions.specs.Changes.{ChangesTo};
ghost use Rattle.forest_versions.specs.State.{ControlState};
ghost use Rattle.forest_versions.specs.Timeline.{Line, as_of, unchanged, TakesBack, IsBefore};
ghost use Rattle.forest_versions.specs.Past.{PastLines, line_of, never, with_reg, noted, AreBefore, IsPastOf};

use crate::checks::find_reg;
use crate::command::Command;
use crate::control::Control;
use crate::rules::RuleList;
use crate::timeline::Timeline;
use app_api::{Reg, Rule};
use reassembly::Policy;
use std::alloc::{AllocError, Global};
use std::marker::Model;

/// What was in force at each version.
#[derive(Drop)]
pub(crate) struct Past {
    /// By number; that of 0 is never set.
    regs: Vec<Timeline<Option<Reg>>>,
    policy: Timeline<Policy>,
    rbuf: Timeline<u32>,
    rules: Timeline<RuleList>,
    idle: Timeline<Option<u32>>,
}

impl Model for Past {
    ghost use Rattle.std.specs.Prelude.{◌≡◌, length};
    ghost use Rattle.forest_versions.specs.Past.{PastLines};
    ghost use Rattle.forest_versions.specs.MasterCode.{past_code};

    ghost Value = { PastLines };

    ghost coded = { past_code };

    ghost view = { λ p. record { regs = p.regs.items; policy = p.policy; rbuf = p.rbuf; rules = p.rules; idle = p.idle } };

    ghost invariant = { λ p. length p.regs.items ≡ 256 };
}

impl Past {
    /// The past before the first command.
    pub(crate) fn new(alloc: Global, control: &Control) -> Result<Past, AllocError>
        ensures { IfOk result (λ p. IsPastOf control.now p) }
    {
        let regs = first_regs(alloc, control.regs())?;
        let rules = control.rules().copy(alloc)?;
        Ok(Past {
            regs,
            policy: Timeline::new(alloc, control.policy()),
            rbuf: Timeline::new(alloc, control.rbuf()),
            rules: Timeline::new(alloc, rules),
            idle: Timeline::new(alloc, control.idle()),
        })
    }

    /// Each number of a registration has its line.
    pub(crate) fn whole(&self)
        ensures { length self.now.regs ≡ 256 }
    {
        let _regs = &self.regs;
    }

    /// The registration of a number at a version, if there was one.
    #[inline(always)]
    pub(crate) fn reg(&self, version: u32, number: u8) -> Option<&Reg>
        ensures { option_copied result ≡ as_of (line_of self.now number) version }
    {
        self.regs[usize::from(number)].at(version).as_ref()
    }

    /// The policy at a version.
    pub(crate) fn policy(&self, version: u32) -> Policy
        ensures { result ≡ as_of self.now.policy version }
    {
        *self.policy.at(version)
    }

    /// The receive buffer at a version, in bytes.
    pub(crate) fn rbuf(&self, version: u32) -> u32
        ensures { result ≡ as_of self.now.rbuf version }
    {
        *self.rbuf.at(version)
    }

    /// The rules at a version, by number.
    #[inline(always)]
    pub(crate) fn rules(&self, version: u32) -> &[Rule]
        ensures { result.now ≡ as_of self.now.rules version }
    {
        self.rules.at(version).as_slice()
    }

    /// For how many seconds a connection may be silent at a version, if a command said so.
    pub(crate) fn idle(&self, version: u32) -> Option<u32>
        ensures { result ≡ as_of self.now.idle version }
    {
        *self.idle.at(version)
    }

    /// Notes that a command is in force from a version on, which is later than all changes so far. The rules before
    /// it are given. An error is want of memory, and changes nothing.
    #[tactic(auto, unfolding(crate::specs::Past::noted))]
    pub(crate) fn note(
        &mut self,
        alloc: Global,
        from: u32,
        rules: &RuleList,
        c: &Command,
    ) -> Result<(), AllocError>
        requires { AreBefore self.old from }
        ensures { ChangesTo self.old self.new (noted from rules.now c.now self.old) result }
    {
        match c {
            Command::Event(_) => Ok(()),
            Command::Register(r) => self.note_reg(from, r.number, Some(*r)),
            Command::Unregister(number) => self.note_reg(from, *number, None),
            Command::Buffer(bytes) => self.rbuf.step(from, *bytes),
            Command::Overlap(policy) => self.policy.step(from, *policy),
            Command::AddRule(rule) => {
                let mut next = rules.copy(alloc)?;
                next.put(*rule)?;
                self.rules.step(from, next)
            }
            Command::RemoveRule(number) => {
                let mut next = rules.copy(alloc)?;
                next.remove(*number);
                self.rules.step(from, next)
            }
            Command::Idle(seconds) => self.idle.step(from, Some(*seconds)),
        }
    }

    /// Takes the note of the last command back.
    #[tactic(auto, unfolding(crate::specs::Past::noted))]
    pub(crate) fn take_back(&mut self, c: &Command)
        ensures { TakesBack (λ past from rules. noted from rules c.now past) self.old self.new }
    {
        match c {
            Command::Event(_) => {}
            Command::Register(r) => self.take_back_reg(r.number),
            Command::Unregister(number) => self.take_back_reg(*number),
            Command::Buffer(_) => self.rbuf.step_back(),
            Command::Overlap(_) => self.policy.step_back(),
            Command::AddRule(_) => self.rules.step_back(),
            Command::RemoveRule(_) => self.rules.step_back(),
            Command::Idle(_) => self.idle.step_back(),
        }
    }

    fn note_reg(&mut self, from: u32, number: u8, reg: Option<Reg>) -> Result<(), AllocError>
        requires { IsBefore (line_of self.old number) from }
        ensures { ChangesTo self.old self.new (with_reg self.old number from reg) result }
    {
        let line = &mut self.regs[usize::from(number)];
        line.step(from, reg)
    }

    fn take_back_reg(&mut self, number: u8)
        ensures { TakesBack (λ past from reg. with_reg past number from reg) self.old self.new }
    {
        let line = &mut self.regs[usize::from(number)];
        line.step_back();
    }
}

// The line of each number before the first command.
fn first_regs(alloc: Global, regs: &[Reg]) -> Result<Vec<Timeline<Option<Reg>>>, AllocError>
    ensures whole { IfOk result (λ lines. length lines.items ≡ 256) }
    ensures lines { IfOk result (λ lines. (number : ℕ) → number ≤ 255
        → slice_index_or lines.items number never ≡ unchanged (reg_of regs.now number)) }
{
    let mut lines = Vec::new(alloc);
    for number in 0..=u8::MAX {
        let first = find_reg(regs, number).copied();
        lines.push(Timeline::new(alloc, first))?;
    }
    Ok(lines)
}
