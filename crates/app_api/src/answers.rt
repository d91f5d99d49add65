//! What an application answers, gathered into lists.

ghost use Rattle.std.specs.Prelude.{◌≡◌, IfOk};

use crate::app::{App, Tally};
use crate::lists::{Bytes, FieldList};
use crate::registration::Reg;
use std::alloc::{AllocError, Global};

/// The presets of an application, by number.
pub fn presets_of<A: App>(alloc: Global, app: &A) -> Result<Vec<Reg>, AllocError>
    ensures { IfOk result (λ presets. presets.items ≡ (A.meaning app.now).presets) }
{
    let mut presets = Vec::new(alloc);
    for number in 1..16 {
        if let Some(preset) = app.preset(number) {
            presets.push(preset)?;
        }
    }
    Ok(presets)
}

/// The fields of a tally in order.
pub fn fields_of<A: App>(alloc: Global, app: &A, t: &Tally) -> Result<FieldList, AllocError>
    ensures { IfOk result (λ fields. fields ≡ (A.meaning app.now).fields t.now) }
{
    let mut items = Vec::new(alloc);
    for place in 0..256u16 {
        let Some((name, value)) = app.field(place as u8, t) else {
            break;
        };
        items.push((bytes_of(alloc, name)?, value))?;
    }
    Ok(FieldList { items })
}

// The bytes of a text.
fn bytes_of(alloc: Global, text: &str) -> Result<Bytes, AllocError>
    ensures { IfOk result (λ bytes. bytes ≡ text.now) }
{
    let items = text.as_bytes().to_vec(alloc)?;
    Ok(Bytes { items })
}
