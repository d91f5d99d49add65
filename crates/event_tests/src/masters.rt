//! What is in force after a script, for an application's presets.

ghost use Rattle.std.specs.Prelude.{IsTrue, IfOk, IfSome};
ghost use Rattle.app_api.specs.Reg.{are_presets};
ghost use Rattle.shared_forest.specs.Rows.{HasRow, tree_at};
ghost use Rattle.connection_core.specs.Trees.{HasPresentForest};

use app_api::{LogApp, Reg, presets_of};
use app_traffic::RexmitApp;
use control_script::{Script, ScriptError, parse_script};
use forest_versions::{Command, Master};
use shared_forest::Table;
use std::alloc::{AllocError, Global};

/// Whose presets are in force before the first command.
#[derive(Clone, Copy)]
pub enum Presets {
    /// 1 pkt_in snd, 2 pkt_in rcv, 3 orphan snd.
    Log,
    /// 1 rexmit rcv, and 2 pkt_in rcv, which is off.
    Rexmit,
}

#[tactic(auto, unfolding(app_api::specs::Log::log, app_api::specs::Events::allows_hook))]
fn log_presets(alloc: Global) -> Result<Vec<Reg>, AllocError>
    ensures { IfOk result (λ presets. IsTrue (are_presets presets.items)) }
{
    presets_of(alloc, &LogApp)
}

#[tactic(auto, unfolding(app_traffic::specs::Rexmit::rexmit, app_api::specs::Events::allows_hook))]
fn rexmit_presets(alloc: Global) -> Result<Vec<Reg>, AllocError>
    ensures { IfOk result (λ presets. IsTrue (are_presets presets.items)) }
{
    presets_of(alloc, &RexmitApp)
}

/// The presets of an application.
pub fn first_presets(alloc: Global, whose: Presets) -> Result<Vec<Reg>, AllocError>
    ensures { IfOk result (λ presets. IsTrue (are_presets presets.items)) }
{
    match whose {
        Presets::Log => log_presets(alloc),
        Presets::Rexmit => rexmit_presets(alloc),
    }
}

/// The script that a text is, for the presets of the log application.
pub fn script_of(alloc: Global, text: &str) -> Result<Script, ScriptError> {
    let presets = log_presets(alloc)?;
    parse_script(alloc, text.as_bytes(), &presets)
}

// Gives a command, where it may be given.
fn give(alloc: Global, table: &mut Table, master: &mut Master, command: &Command) -> bool
    requires answered { HasRow table.old master.old.forest }
    requires forest { HasPresentForest (tree_at table.old) master.old }
    ensures answered { HasRow table.new master.new.forest }
    ensures forest { HasPresentForest (tree_at table.new) master.new }
{
    if master.version() >= 4096 || !master.control().is_lawful(command) {
        return false;
    }
    master.apply(alloc, table, command).is_ok()
}

// Gives the commands of a script in order.
fn give_all(alloc: Global, table: &mut Table, master: &mut Master, script: &Script) -> bool
    requires answered { HasRow table.old master.old.forest }
    requires forest { HasPresentForest (tree_at table.old) master.old }
    ensures answered { HasRow table.new master.new.forest }
    ensures forest { HasPresentForest (tree_at table.new) master.new }
{
    for place in 0..script.len() {
        let Some(command) = script.command(place) else {
            return false;
        };
        if !give(alloc, table, master, command) {
            return false;
        }
    }
    true
}

/// What is in force after a script. None where memory is wanted or the text is no script.
pub fn master_after(alloc: Global, table: &mut Table, whose: Presets, text: &str) -> Option<Master>
    ensures answered { IfSome result (λ m. HasRow table.new m.forest) }
    ensures forest { IfSome result (λ m. HasPresentForest (tree_at table.new) m) }
{
    let presets = first_presets(alloc, whose).ok()?;
    let script = parse_script(alloc, text.as_bytes(), &presets).ok()?;
    let mut master = Master::new(alloc, table, &presets).ok()?;
    if give_all(alloc, table, &mut master, &script) {
        Some(master)
    } else {
        None
    }
}
