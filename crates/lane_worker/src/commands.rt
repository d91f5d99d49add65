//! The commands of a script, which a lane takes one after another.

ghost use Rattle.std.specs.Prelude.{◌≡◌, ◌<◌, ◌≤◌, length, None, Some, IsTrue, OnOk, IfErr};
ghost use Rattle.forest_versions.specs.Lawful.{are_lawful};
ghost use Rattle.forest_versions.specs.State.{start};
ghost use Rattle.control_script.specs.Order.{commands_of};
ghost use Rattle.lane_worker.specs.Given.{IsUnder, TakesCommands, TakesNext};

use control_script::Script;
use lane_core::{LaneError, Recorder};
use std::alloc::Global;

/// Gives the lane the script's next command. An error is want of memory.
pub(crate) fn give_next<L: Recorder>(
    alloc: Global,
    lane: &mut L,
    script: &Script,
) -> Result<(), LaneError>
    requires good { L.failed lane.old ≡ None }
    requires lawful { IsTrue (are_lawful (start (L.app lane.old).presets) (commands_of script.now)) }
    requires under { IsUnder L.Recorder (commands_of script.now) lane.old }
    requires more { L.given lane.old < length script.now }
    requires few { L.given lane.old < 4096 }
    ensures next { TakesNext L.Recorder (commands_of script.now) lane.old lane.new }
    ensures ok { OnOk result (L.failed lane.new ≡ None) }
    ensures fails { IfErr result (λ e. L.failed lane.new ≡ Some e) }
    ensures no_memory { IfErr result (λ e. e ≡ LaneError.NoMemory) }
{
    match script.command(lane.version()) {
        Some(command) => lane.command(alloc, command),
        None => unreachable!(),
    }
}

// Gives the lane the commands that it lacks up to a version. At most packets it lacks none, and this isn't called.
#[inline(never)]
fn give_lacking<L: Recorder>(
    alloc: Global,
    lane: &mut L,
    script: &Script,
    version: u32,
) -> Result<(), LaneError>
    requires good { L.failed lane.old ≡ None }
    requires lawful { IsTrue (are_lawful (start (L.app lane.old).presets) (commands_of script.now)) }
    requires under { IsUnder L.Recorder (commands_of script.now) lane.old }
    requires before { L.given lane.old ≤ version }
    requires within { version ≤ length script.now }
    requires few { version ≤ 4096 }
    ensures takes { TakesCommands L.Recorder (commands_of script.now) lane.old lane.new }
    ensures ok { OnOk result (L.failed lane.new ≡ None) }
    ensures version { OnOk result (L.given lane.new ≡ version) }
    ensures under { OnOk result (IsUnder L.Recorder (commands_of script.now) lane.new) }
    ensures fails { IfErr result (λ e. L.failed lane.new ≡ Some e) }
    ensures no_memory { IfErr result (λ e. e ≡ LaneError.NoMemory) }
{
    while lane.version() < version {
        give_next(alloc, lane, script)?;
    }
    Ok(())
}

/// Gives the lane the script's commands up to a version. An error is want of memory, and the lane has failed.
#[inline(always)]
pub fn give_commands<L: Recorder>(
    alloc: Global,
    lane: &mut L,
    script: &Script,
    version: u32,
) -> Result<(), LaneError>
    requires good { L.failed lane.old ≡ None }
    requires lawful { IsTrue (are_lawful (start (L.app lane.old).presets) (commands_of script.now)) }
    requires under { IsUnder L.Recorder (commands_of script.now) lane.old }
    requires before { L.given lane.old ≤ version }
    requires within { version ≤ length script.now }
    requires few { version ≤ 4096 }
    ensures takes { TakesCommands L.Recorder (commands_of script.now) lane.old lane.new }
    ensures ok { OnOk result (L.failed lane.new ≡ None) }
    ensures version { OnOk result (L.given lane.new ≡ version) }
    ensures under { OnOk result (IsUnder L.Recorder (commands_of script.now) lane.new) }
    ensures fails { IfErr result (λ e. L.failed lane.new ≡ Some e) }
    ensures no_memory { IfErr result (λ e. e ≡ LaneError.NoMemory) }
{
    if lane.version() >= version {
        return Ok(());
    }
    give_lacking(alloc, lane, script, version)
}
