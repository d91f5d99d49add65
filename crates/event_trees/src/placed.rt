//! Registrations with their paths.

ghost use Rattle.std.specs.Prelude.{◌≡◌, IsTrue, IfOk};
ghost use Rattle.std.specs.List.{All};
ghost use Rattle.event_trees.specs.Defs.{is_event, AreDefs};
ghost use Rattle.event_trees.specs.Canon.{placed_of, placed};
ghost use Rattle.event_trees.specs.Build.{seen, all_seen};

use crate::defs::Defs;
use crate::path::EventPath;
use app_api::Reg;
use shared_forest::Slot;
use std::alloc::{AllocError, Global};

/// A registration with the path of its event.
#[derive(Clone, Copy, Debug)]
pub(crate) struct PlacedReg {
    pub path: EventPath,
    pub slot: Slot,
}

/// A registration with its path.
pub(crate) fn place(defs: &Defs, reg: &Reg) -> PlacedReg
    requires { IsTrue (is_event defs.now reg.now.event) }
    ensures placed { seen result ≡ placed_of defs.now reg.now }
    ensures defs { AreDefs defs.now }
{
    PlacedReg {
        path: defs.path_of(reg.event),
        slot: Slot {
            number: reg.number,
            hook: reg.hook,
        },
    }
}

/// Registrations with their paths.
pub(crate) fn place_all(
    alloc: Global,
    defs: &Defs,
    list: &[Reg],
) -> Result<Vec<PlacedReg>, AllocError>
    requires { All (λ r. IsTrue (is_event defs.now r.event)) list.now }
    ensures { IfOk result (λ regs. all_seen regs.items ≡ placed defs.now list.now) }
{
    let mut regs = Vec::new(alloc);
    for reg in list {
        regs.push(place(defs, reg))?;
    }
    Ok(regs)
}
