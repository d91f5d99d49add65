//! From a text to the script that it is.

ghost use Rattle.std.specs.Prelude.{◌≡◌, Ok, IfOk, IsTrue, Err};
ghost use Rattle.app_api.specs.Reg.{are_presets};
ghost use Rattle.forest_versions.specs.Lawful.{are_lawful};
ghost use Rattle.forest_versions.specs.State.{start};
ghost use Rattle.control_script.specs.Order.{commands_of};
ghost use Rattle.control_script.specs.Script.{IfRefused, script};

use crate::error::ScriptError;
use crate::lines::{first_line, without_return};
use crate::progress::Progress;
use crate::script::Script;
use app_api::Reg;
use std::alloc::Global;

/// The script that a text is, for an application with these presets.
///
/// # Errors
///
/// The first line that is refused, and why; or `NoMemory`.
pub fn parse_script(alloc: Global, text: &[u8], presets: &[Reg]) -> Result<Script, ScriptError>
    requires lawful { IsTrue (are_presets presets.now) }
    ensures ok { IfOk result (λ s. script text.now presets.now ≡ Ok s) }
    ensures lawful { IfOk result (λ s. IsTrue (are_lawful (start presets.now) (commands_of s))) }
    ensures err { IfRefused result (λ e. script text.now presets.now ≡ Err e) }
{
    let mut progress = Progress::new(alloc, presets)?;
    let mut rest = text;
    let mut n: u32 = 1;
    'lines: while !rest.is_empty() {
        let (line, behind) = first_line(rest);
        progress.line(alloc, n, without_return(line))?;
        rest = behind;
        n = n.saturating_add(1);
    }
    Ok(progress.script)
}
