//! Why a command can't be given where it stands.

ghost use Rattle.std.specs.Prelude.{◌≡◌, slice_index, is_some};
ghost use Rattle.std.specs.Option.{option_copied};
ghost use Rattle.app_api.specs.Events.{allows_hook};
ghost use Rattle.app_api.specs.Reg.{reg_of};
ghost use Rattle.forest_versions.specs.Lawful.{event_refusal, reg_refusal, taken, missing, hook_may_be};

use crate::refusal::Refusal;
use app_api::{Reg, allows_hook};
use event_trees::{Defs, EventDef};
use native_filters::Hook;

/// The most events on the path of an event's parent.
const DEEPEST_PARENT: u8 = 7;

/// Why an event can't be defined.
pub(crate) fn event_refusal(defs: &Defs, d: &EventDef) -> Option<Refusal>
    ensures { result ≡ event_refusal defs.now d.now }
{
    if defs.find(d.number).is_some() {
        return Some(Refusal::Duplicate);
    }
    match defs.root_of(d.parent) {
        None => Some(Refusal::NoSuchNumber),
        Some((_, len)) => {
            if len > DEEPEST_PARENT {
                Some(Refusal::TooDeep)
            } else {
                None
            }
        }
    }
}

/// Why a registration can't be made.
pub(crate) fn reg_refusal(defs: &Defs, regs: &[Reg], r: &Reg) -> Option<Refusal>
    ensures { result ≡ reg_refusal defs.now regs.now r.now }
{
    if find_reg(regs, r.number).is_some() {
        return Some(Refusal::Duplicate);
    }
    match defs.root_of(r.event) {
        None => Some(Refusal::NoSuchNumber),
        Some((root, _)) => {
            if hook_may_be(root, r) {
                None
            } else {
                Some(Refusal::WrongHook)
            }
        }
    }
}

// Whether a registration's hook is one of this root's, and its action may stand at that hook.
fn hook_may_be(root: u16, r: &Reg) -> bool
    ensures { result ≡ hook_may_be root r.now }
{
    if !allows_hook(root, r.hook) {
        return false;
    }
    match r.hook {
        Hook::Snd => true,
        Hook::Rcv => !r.action.drop,
    }
}

/// The registration of a number.
pub(crate) fn find_reg(regs: &[Reg], number: u8) -> Option<&Reg>
    ensures { option_copied result ≡ reg_of regs.now number }
{
    regs.iter().find(|r| r.number == number)
}

/// Why a number can't be taken.
pub(crate) fn taken(there: bool) -> Option<Refusal>
    ensures { result ≡ taken there }
{
    if there {
        Some(Refusal::Duplicate)
    } else {
        None
    }
}

/// Why a number can't be removed.
pub(crate) fn missing(there: bool) -> Option<Refusal>
    ensures { result ≡ missing there }
{
    if there {
        None
    } else {
        Some(Refusal::NoSuchNumber)
    }
}
