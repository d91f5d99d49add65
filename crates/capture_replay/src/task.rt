//! The task that settings choose.

ghost use Rattle.std.specs.Prelude.{◌≡◌};
ghost use Rattle.capture_replay.specs.Outcome.{made_for, output_of};

use crate::output::output_of;
use crate::plan::Task;
use control_script::Script;
use words::Settings;

/// What these settings ask of an application under a script. Which application they name doesn't matter.
pub fn task_of<'a, A>(app: A, settings: &Settings, script: &'a Script) -> Task<'a, A>
    ensures app { result.app ≡ app }
    ensures script { result.script.now ≡ script.now }
    ensures output { result.output ≡ output_of settings.now }
    ensures workers { result.workers ≡ settings.now.workers }
    ensures made { made_for result.output ≡ settings.now.make }
{
    Task {
        app,
        script,
        output: output_of(settings),
        workers: settings.workers,
    }
}
