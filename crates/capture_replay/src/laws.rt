//! Laws on the versions of a run. These functions do nothing: who runs calls them for what they say.

ghost use Rattle.capture_replay.specs.Laws.{CeilingsMayBeHad, CeilingsAreOneWorkers, CeilingsRecordTheSame, CeilingsForwardTheSame, OneListIsAllowed};

use lane_composition::packets::packets_of_a_capture_rise;
use lane_composition::runs::{
    a_run_has_its_versions, ceilings_are_allowed, without_live_commands_there_is_one_run,
};
use lane_composition::versions::a_script_gives_floors_and_ceilings;

/// The versions of a run with one worker, the ceiling of each record's first packet, may be had by any number of
/// workers; and under them all write what one worker writes.
pub fn what_one_worker_has_is_allowed()
    ensures allowed { CeilingsMayBeHad }
    ensures outcome { CeilingsAreOneWorkers }
    ensures records { CeilingsRecordTheSame }
    ensures forwarded { CeilingsForwardTheSame }
{
    packets_of_a_capture_rise();
    a_run_has_its_versions();
    a_script_gives_floors_and_ceilings();
    ceilings_are_allowed();
    without_live_commands_there_is_one_run();
}

/// Where a script has no live command, the versions that a run may have are those of one worker, however many there are.
/// So is what it writes.
pub fn without_live_commands_all_versions_are_known()
    ensures { OneListIsAllowed }
{
    a_run_has_its_versions();
    a_script_gives_floors_and_ceilings();
    without_live_commands_there_is_one_run();
}
