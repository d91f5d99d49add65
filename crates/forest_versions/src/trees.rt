//! The tree of the registrations that are on, as commands change them.

ghost use Rattle.std.specs.Prelude.{◌≡◌, List, IsTrue, IfSome, IfNone, IfOk, OnErr, [], true, false, Some, length};
ghost use Rattle.std.specs.List.{filter};
ghost use Rattle.app_api.specs.declared.registration.Reg.{Reg as RegOf};
ghost use Rattle.app_api.specs.Reg.{reg_of};
ghost use Rattle.event_trees.specs.Stored.{Stores};
ghost use Rattle.forest_versions.specs.Changes.{ChangesTo, HoldsTree};
ghost use Rattle.forest_versions.specs.State.{after, registered, withdrawn};
ghost use Rattle.forest_versions.specs.Lawful.{is_lawful, IsRegistrable};

use crate::checks::find_reg;
use crate::command::Command;
use crate::control::Control;
use app_api::{ActiveList, Reg};
use event_trees::{build, edit};
use shared_forest::{Forests, Shared};
use std::alloc::{AllocError, Global};

/// The tree of the registrations that are on.
pub(crate) fn first_tree<F: Forests>(
    alloc: Global,
    f: &mut F,
    control: &Control,
) -> Result<Shared, AllocError>
    ensures held { IfOk result (λ s. HoldsTree F.ForestView f.new control.now s) }
    ensures stored { Stores F.ForestView f.old f.new result }
{
    control.sound();
    let list = active_regs(alloc, control.regs())?;
    build(alloc, f, control.defs(), &list)
}

/// Gives a lawful command, and keeps the tree. An error is want of memory, and changes nothing.
pub(crate) fn change<F: Forests>(
    alloc: Global,
    f: &mut F,
    control: &mut Control,
    forest: &mut Shared,
    c: &Command,
) -> Result<(), AllocError>
    requires held { HoldsTree F.ForestView f.old control.old forest.old }
    requires lawful { IsTrue (is_lawful control.old c.now) }
    ensures made { ChangesTo control.old control.new (after control.old c.now) result }
    ensures held { HoldsTree F.ForestView f.new control.new forest.new }
    ensures stored { Stores F.ForestView f.old f.new result }
    ensures tree { OnErr result (forest.new ≡ forest.old) }
{
    match c {
        Command::Event(d) => control.define(alloc, d),
        Command::Register(r) => register(alloc, f, control, forest, r),
        Command::Unregister(number) => withdraw(alloc, f, control, forest, *number),
        Command::Buffer(_) => control.set(c),
        Command::Overlap(_) => control.set(c),
        Command::AddRule(_) => control.set(c),
        Command::RemoveRule(_) => control.set(c),
        Command::Idle(_) => control.set(c),
    }
}

// Adds a registration to what is in force, and to the tree where it is on.
fn register<F: Forests>(
    alloc: Global,
    f: &mut F,
    control: &mut Control,
    forest: &mut Shared,
    r: &Reg,
) -> Result<(), AllocError>
    requires held { HoldsTree F.ForestView f.old control.old forest.old }
    requires fits { IsRegistrable control.old r.now }
    ensures made { ChangesTo control.old control.new (registered control.old r.now) result }
    ensures held { HoldsTree F.ForestView f.new control.new forest.new }
    ensures stored { Stores F.ForestView f.old f.new result }
    ensures tree { OnErr result (forest.new ≡ forest.old) }
{
    control.sound();
    control.register(r)?;
    if !r.on {
        return Ok(());
    }
    match edit(alloc, f, forest, control.defs(), r, true) {
        Ok(edited) => {
            *forest = edited;
            Ok(())
        }
        Err(refused) => {
            control.withdraw(r.number);
            Err(refused)
        }
    }
}

// Removes a registration from what is in force, and from the tree where it is on.
fn withdraw<F: Forests>(
    alloc: Global,
    f: &mut F,
    control: &mut Control,
    forest: &mut Shared,
    number: u8,
) -> Result<(), AllocError>
    requires held { HoldsTree F.ForestView f.old control.old forest.old }
    ensures made { ChangesTo control.old control.new (withdrawn control.old number) result }
    ensures held { HoldsTree F.ForestView f.new control.new forest.new }
    ensures stored { Stores F.ForestView f.old f.new result }
    ensures tree { OnErr result (forest.new ≡ forest.old) }
{
    control.sound();
    match find_on(control.regs(), number) {
        None => {
            control.withdraw(number);
            Ok(())
        }
        Some(reg) => {
            let edited = edit(alloc, f, forest, control.defs(), &reg, false)?;
            *forest = edited;
            control.withdraw(number);
            Ok(())
        }
    }
}

// The registration of a number, if it is there and on.
fn find_on(regs: &[Reg], number: u8) -> Option<Reg>
    ensures there { IfSome result (λ r. reg_of regs.now number ≡ Some r) }
    ensures on { IfSome result (λ r. r.on ≡ true) }
    ensures off { IfNone result ((r : RegOf) → reg_of regs.now number ≡ Some r → r.on ≡ false) }
{
    match find_reg(regs, number) {
        None => None,
        Some(reg) => { if reg.on { Some(*reg) } else { None } }
    }
}

// The registrations that are on.
fn active_regs(alloc: Global, regs: &[Reg]) -> Result<ActiveList, AllocError>
    ensures { IfOk result (λ list. list ≡ filter (λ r. r.on) regs.now) }
{
    let mut items = Vec::from_slice(alloc, regs)?;
    items.retain(|reg| reg.on);
    Ok(ActiveList { items })
}
