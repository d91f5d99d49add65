//! The script of a run.

ghost use Rattle.std.specs.Prelude.{◌≡◌, ◌⊎◌, ◌<◌, ◌≤◌, ℕ, List, [], length, Some, None, Ok, Err, IsOk, IfOk, IfErr, OnOk, IsTrue, IsErrOf};
ghost use Rattle.std.specs.Option.{option_map_or};
ghost use Rattle.control_script.specs.Order.{are_in_order};
ghost use Rattle.mos_bytes.specs.Outside.{Fetches};
ghost use Rattle.mos_run.specs.Script.{commands_in};
ghost use Rattle.mos_run.specs.Refusal.{status_of};
ghost use Rattle.capture_replay.specs.Runs.{MayRun};

use crate::refusal::RunError;
use app_api::{App, presets_of};
use control_script::{Script, parse_script};
use mos_bytes::{FetchError, Shelf};
use std::alloc::Global;
use words::Name;

/// The most bytes that a script may have.
const MOST_BYTES: usize = 262_144;

// The text of the script; where none is named, it is empty.
fn text_of<H: Shelf>(
    alloc: Global,
    shelf: &mut H,
    name: &Option<Name>,
) -> Result<Vec<u8>, FetchError>
    ensures text { IfOk result (λ bytes. (text : List ℕ) → option_map_or (H.content shelf.old) name.now (Some []) ≡ Some text
        → bytes.items ≡ text) }
    ensures within { IfOk result (λ bytes. length bytes.items ≤ 262144) }
    ensures too_long { result ≡ Err FetchError.TooLong
        → (text : List ℕ) → option_map_or (H.content shelf.old) name.now (Some []) ≡ Some text → 262144 < length text }
    ensures unasked { name.now ≡ None → IsOk result × (shelf.new ≡ shelf.old) }
    ensures faultless { OnOk result (H.faults shelf.new ≡ H.faults shelf.old) }
    ensures from { Fetches H.Shelf shelf.old shelf.new (IsErrOf result FetchError.Failed) }
{
    match name {
        Some(name) => shelf.fetch(alloc, name.as_str(), MOST_BYTES),
        None => Ok(Vec::new(alloc)),
    }
}

/// The script of a name, fetched from `shelf` and read; without a name one of no commands. It is lawful with the presets of the
/// application, and in order.
///
/// It is refused where it has more than 262,144 bytes, or in its first line that can't stand. Else an error is a fault of the
/// shelf, or want of memory.
pub(crate) fn script_of<A: App, H: Shelf>(
    alloc: Global,
    app: &A,
    shelf: &mut H,
    name: &Option<Name>,
) -> Result<Script, RunError>
    ensures ok { IfOk result (λ script. (text : List ℕ)
        → option_map_or (H.content shelf.old) name.now (Some []) ≡ Some text
        → commands_in (A.meaning app.now) text ≡ Ok script) }
    ensures lawful { IfOk result (λ script. MayRun (A.meaning app.now) script) }
    ensures order { IfOk result (λ script. IsTrue (are_in_order script)) }
    ensures refused { IfErr result (λ e. (text : List ℕ)
        → option_map_or (H.content shelf.old) name.now (Some []) ≡ Some text
        → (commands_in (A.meaning app.now) text ≡ Err e) ⊎ (e ≡ RunError.ReadFault) ⊎ (e ≡ RunError.NoMemory)) }
    ensures early { IfErr result
        (λ e. (status_of e ≡ 2) ⊎ (e ≡ RunError.ReadFault) ⊎ (e ≡ RunError.NoMemory)) }
    ensures unasked { name.now ≡ None
        → (shelf.new ≡ shelf.old) × IfErr result (λ e. e ≡ RunError.NoMemory) }
    ensures faultless { OnOk result (H.faults shelf.new ≡ H.faults shelf.old) }
    ensures from { Fetches H.Shelf shelf.old shelf.new (IsErrOf result RunError.ReadFault) }
{
    let presets = presets_of(alloc, app)?;
    let text = text_of(alloc, shelf, name)?;
    let script = parse_script(alloc, &text, &presets)?;
    Ok(script)
}
