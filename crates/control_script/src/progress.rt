//! A script as far as its lines have been read.

ghost use Rattle.std.specs.Prelude.{◌≡◌, [], IfOk, IsTrue};
ghost use Rattle.app_api.specs.Reg.{are_presets};
ghost use Rattle.control_script.specs.Script.{error_of};

use crate::error::ScriptError;
use crate::lines::{is_skipped, said};
use crate::script::Script;
use crate::stamped::Stamped;
use app_api::Reg;
use forest_versions::{Control, Refusal};
use std::alloc::{AllocError, Global};

/// The most commands of a script.
const COMMANDS: u32 = 4096;

/// The commands so far, and what is in force behind them.
#[derive(Drop)]
pub(crate) struct Progress {
    pub(crate) script: Script,
    pub(crate) control: Control,
}

impl Progress {
    ghost use Rattle.std.specs.Prelude.{Ok, Err, OnOk};
    ghost use Rattle.forest_versions.specs.Lawful.{is_within};
    ghost use Rattle.control_script.specs.Progress.{OnPresetsOf, StandsOn};
    ghost use Rattle.control_script.specs.Script.{IfRefused, admitted, line_read};

    /// Before the first line.
    pub(crate) fn new(alloc: Global, presets: &[Reg]) -> Result<Progress, AllocError>
        requires lawful { IsTrue (are_presets presets.now) }
        ensures script { IfOk result (λ p. p.script ≡ []) }
        ensures stands { IfOk result (λ p. StandsOn presets.now p) }
    {
        let control = Control::start(alloc, presets)?;
        Ok(Progress {
            script: Script::new(alloc),
            control,
        })
    }

    /// Reads a line.
    pub(crate) fn line(&mut self, alloc: Global, n: u32, line: &[u8]) -> Result<(), ScriptError>
        ensures ok { OnOk result (OnPresetsOf self.old (λ presets.
            line_read presets n self.old.script line.now ≡ Ok self.new.script)) }
        ensures stands { OnOk result (OnPresetsOf self.old (λ presets. StandsOn presets self.new)) }
        ensures err { IfRefused result (λ e. OnPresetsOf self.old (λ presets.
            line_read presets n self.old.script line.now ≡ Err e)) }
    {
        if is_skipped(line) {
            return Ok(());
        }
        let stamped = said(alloc, n, line)?;
        self.admit(alloc, n, stamped)
    }

    // Adds a command, where it may be given.
    fn admit(&mut self, alloc: Global, n: u32, stamped: Stamped) -> Result<(), ScriptError>
        requires within { IsTrue (is_within stamped.command) }
        ensures ok { OnOk result (OnPresetsOf self.old (λ presets.
            admitted presets n self.old.script stamped ≡ Ok self.new.script)) }
        ensures stands { OnOk result (OnPresetsOf self.old (λ presets. StandsOn presets self.new)) }
        ensures err { IfRefused result (λ e. OnPresetsOf self.old (λ presets.
            admitted presets n self.old.script stamped ≡ Err e)) }
    {
        if self.script.len() >= COMMANDS {
            return Err(ScriptError::TooMany(n));
        }
        if !self.script.may_follow(stamped.stamp) {
            return Err(ScriptError::StampOrder(n));
        }
        match self.control.refusal(&stamped.command) {
            Some(refusal) => Err(fault_of(refusal, n)),
            None => {
                self.control.apply(alloc, &stamped.command)?;
                self.script.push(stamped)?;
                Ok(())
            }
        }
    }
}

// Why a command can't be given, as a refusal of its line.
fn fault_of(refusal: Refusal, n: u32) -> ScriptError
    ensures { result ≡ error_of refusal n }
{
    match refusal {
        Refusal::Duplicate => ScriptError::Duplicate(n),
        Refusal::NoSuchNumber => ScriptError::NoSuchNumber(n),
        Refusal::TooDeep => ScriptError::TooDeep(n),
        Refusal::WrongHook => ScriptError::Syntax(n),
    }
}
