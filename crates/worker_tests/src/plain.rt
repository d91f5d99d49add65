//! What every lane of these tests is given: the plain functions as native filters, and scripts over the log application.

ghost use Rattle.std.specs.Prelude.{◌≡◌, IsTrue, IfOk, IfSome};
ghost use Rattle.app_api.specs.Log.{log};
ghost use Rattle.app_api.specs.Reg.{are_presets};
ghost use Rattle.forest_versions.specs.Lawful.{are_lawful};
ghost use Rattle.forest_versions.specs.State.{start};
ghost use Rattle.control_script.specs.Order.{commands_of};

use app_api::{LogApp, Reg, presets_of};
use control_script::{Script, parse_script};
use native_filters::{
    Native, NativeBook, has_differing_bytes, has_system_port, is_ending, is_keep_alive, is_opening,
    is_private_traffic,
};
use std::alloc::{AllocError, Global};

pub fn natives() -> NativeBook {
    NativeBook::new(
        Native::new(0, is_opening),
        Native::new(1, has_system_port),
        Native::new(2, is_private_traffic),
        Native::new(3, is_keep_alive),
        Native::new(4, is_ending),
        Native::new(5, has_differing_bytes),
    )
}

// The log application's presets.
#[tactic(auto, unfolding(app_api::specs::Log::log, app_api::specs::Events::allows_hook))]
fn log_presets(alloc: Global) -> Result<Vec<Reg>, AllocError>
    ensures log { IfOk result (λ presets. presets.items ≡ log.presets) }
    ensures lawful { IfOk result (λ presets. IsTrue (are_presets presets.items)) }
{
    presets_of(alloc, &LogApp)
}

// A script that is read with the log application's presets.
pub fn script(alloc: Global, text: &str) -> Option<Script>
    ensures { IfSome result (λ script. IsTrue (are_lawful (start log.presets) (commands_of script))) }
{
    let presets = log_presets(alloc).ok()?;
    parse_script(alloc, text.as_bytes(), &presets).ok()
}
