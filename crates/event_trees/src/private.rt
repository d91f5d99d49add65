//! Private lists: whether a list is one, and one registration switched on or off.

ghost use Rattle.std.specs.Prelude.{◌≡◌, ◌≤◌, ◌++◌, ◌∷◌, ◌↔◌, length, take, drop, eqb, not, false, IsTrue, IsOk, OnOk, OnErr};
ghost use Rattle.std.specs.List.{All, IsDistinct, list_any};
ghost use Rattle.std.specs.List.Sorted.{IsStrictlySortedBy};
ghost use Rattle.std.specs.Ordering.{is_lt};
ghost use Rattle.event_trees.specs.Defs.{is_event};
ghost use Rattle.event_trees.specs.Private.{reg_cmp, numbers_of, IsPrivate, put_reg, edited};
ghost use Rattle.event_trees.specs.Edit.{IsSwitchable, placed_cmp};
ghost use Rattle.event_trees.specs.Build.{seen};
ghost use Rattle.event_trees.specs.Canon.{placed_of};

use crate::defs::Defs;
use crate::edits::is_before;
use crate::placed::{PlacedReg, place};
use app_api::{ActiveList, Reg};
use std::alloc::AllocError;

/// Whether a list may be the registrations that are on for a connection: numbers from 1 on, each once, of events
/// that are there, in the order in which they are called.
pub fn is_private(defs: &Defs, active: &ActiveList) -> bool
    ensures is { IsTrue result ↔ IsPrivate defs.now active.now }
    ensures few { IsTrue result → length active.now ≤ 255 }
{
    let list = active.as_slice();
    have_numbers(list) && have_events(defs, list) && are_distinct(list) && rise(defs, list)
}

/// Switches one registration of a private list on or off: its number is absent before it is switched on, and it is
/// there before it is switched off. An error is want of memory, and changes nothing.
pub fn switch(defs: &Defs, active: &mut ActiveList, reg: &Reg, on: bool) -> Result<(), AllocError>
    requires private { IsPrivate defs.now active.old }
    requires low { 1 ≤ reg.now.number }
    requires event { IsTrue (is_event defs.now reg.now.event) }
    requires switchable { IsSwitchable active.old reg.now on }
    ensures ok { OnOk result (active.new ≡ edited defs.now active.old reg.now on) }
    ensures off { on ≡ false → IsOk result }
    ensures private { IsPrivate defs.now active.new }
    ensures few { length active.new ≤ 255 }
    ensures err { OnErr result (active.new ≡ active.old) }
{
    let number = reg.number;
    if on {
        let place = place_in(defs, active.as_slice(), reg);
        active.items.insert(place, *reg)?;
    } else {
        active.items.retain(|r| r.number != number);
    }
    Ok(())
}

// Whether each number is from 1 to 255.
fn have_numbers(list: &[Reg]) -> bool
    ensures { IsTrue result ↔ All (λ r. (1 ≤ r.number) × (r.number ≤ 255)) list.now }
{
    for reg in list {
        if reg.number == 0 {
            return false;
        }
    }
    true
}

// Whether each event is there.
fn have_events(defs: &Defs, list: &[Reg]) -> bool
    ensures { IsTrue result ↔ All (λ r. IsTrue (is_event defs.now r.event)) list.now }
{
    for reg in list {
        if !defs.is_event(reg.event) {
            return false;
        }
    }
    true
}

// Whether a registration has this number.
fn has_number(list: &[Reg], number: u8) -> bool
    ensures { result ≡ list_any (eqb number) (numbers_of list.now) }
{
    for reg in list {
        if number == reg.number {
            return true;
        }
    }
    false
}

// Whether no two have one number.
fn are_distinct(list: &[Reg]) -> bool
    ensures { IsTrue result ↔ IsDistinct eqb (numbers_of list.now) }
{
    for i in 0..list.len() {
        if has_number(&list[i + 1..], list[i].number) {
            return false;
        }
    }
    true
}

// Whether each comes before the next.
fn rise(defs: &Defs, list: &[Reg]) -> bool
    requires { All (λ r. IsTrue (is_event defs.now r.event)) list.now }
    ensures { IsTrue result ↔ IsStrictlySortedBy (reg_cmp defs.now) list.now }
{
    for i in 1..list.len() {
        if !comes_before(defs, &place(defs, &list[i - 1]), &list[i]) {
            return false;
        }
    }
    true
}

// Whether a registration with its path comes before another: by path, and then by number.
fn comes_before(defs: &Defs, a: &PlacedReg, b: &Reg) -> bool
    requires { IsTrue (is_event defs.now b.now.event) }
    ensures { result ≡ is_lt (placed_cmp (seen a.now) (placed_of defs.now b.now)) }
{
    is_before(a, &place(defs, b))
}

// Where a registration belongs in a private list.
fn place_in(defs: &Defs, list: &[Reg], reg: &Reg) -> usize
    requires list { All (λ r. IsTrue (is_event defs.now r.event)) list.now }
    requires event { IsTrue (is_event defs.now reg.now.event) }
    ensures within { result ≤ length list.now }
    ensures place { put_reg defs.now reg.now list.now ≡ take result list.now ++ reg.now ∷ drop result list.now }
{
    let placed = place(defs, reg);
    for i in 0..list.len() {
        if comes_before(defs, &placed, &list[i]) {
            return i;
        }
    }
    list.len()
}
