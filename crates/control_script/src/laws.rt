//! Laws on scripts: what their definition says in other words. These functions do nothing.

ghost use Rattle.std.specs.Prelude.{◌≡◌, ℕ, List, Err, Some, ◌<◌, slice_get};
ghost use Rattle.app_api.specs.declared.registration.Reg.{Reg};
ghost use Rattle.forest_versions.specs.declared.command.Stamp.TheVariants.{At};
ghost use Rattle.control_script.specs.declared.error.ScriptError.{ScriptError};
ghost use Rattle.control_script.specs.declared.stamped.Stamped.{Stamped};
ghost use Rattle.control_script.specs.Laws.{IsFirstRefused, SeesWhatItMust};
ghost use Rattle.control_script.specs.Script.{script};
ghost use Rattle.control_script.specs.Versions.{floor};

/// A text is refused at one of its lines: those before it are read, and it is refused behind their commands.
pub fn first_refusal()
    ensures { (text : List ℕ) (presets : List Reg) (e : ScriptError) → script text presets ≡ Err e
        → IsFirstRefused presets text e }
{}

/// A packet sees each command that it has to, and none that it may not. So a command without a stamp, which is `at 0`,
/// is in force from the first packet on.
pub fn packets_see_what_they_must()
    ensures sees { (script : List Stamped) (n : ℕ) → SeesWhatItMust script n }
    ensures unstamped { (script : List Stamped) (n place : ℕ) (s : Stamped) → slice_get script place ≡ Some s
        → s.stamp ≡ At 0 → place < floor script n }
{}
