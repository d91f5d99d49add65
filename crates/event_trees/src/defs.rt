//! The user-defined events.

ghost use Rattle.std.specs.Prelude.{◌≡◌, ◌≤◌, ◌++◌, [], ◌∷◌, ◌↔◌, length, slice_index, IsTrue, IsSome, IfSome, OnOk, OnErr, None, Some, List, ℕ, ◌==◌, if◌then◌else◌};
ghost use Rattle.std.specs.Option.{option_copied};
ghost use Rattle.event_trees.specs.Defs.{found, is_root, is_event, path, AreDefs};
ghost use Rattle.event_trees.specs.Rows.{row_of, AreRows, ArePlaces};

use crate::path::EventPath;
use app_api::is_built_in;
use filter_lang::Expr;
use std::alloc::{AllocError, Global};
use std::marker::Model;

/// The numbers of user-defined events are below this.
const NUMBERS: usize = 256;

/// A user-defined event: it is raised where its parent is raised and its filter is true.
#[derive(Drop)]
pub struct EventDef {
    /// Its number, 1 to 255.
    pub number: u16,
    /// The number of the event above it: a built-in event or a user-defined one.
    pub parent: u16,
    /// What has to be true of the facts of a raise.
    pub filter: Expr,
}

/// A definition, and the path of its event.
#[derive(Drop)]
struct Row {
    def: EventDef,
    path: EventPath,
}

/// The user-defined events by their numbers. Contracts see them in the order in which they were added.
///
/// An event is found in constant time, however many there are.
#[derive(Drop)]
pub struct Defs {
    rows: Vec<Row>,
    places: [Option<u8>; NUMBERS],
}

impl Model for Defs {
    ghost use Rattle.std.specs.Prelude.{List};
    ghost use Rattle.event_trees.specs.declared.defs.EventDef.{EventDef};
    ghost use Rattle.event_trees.specs.contracts.defs.EventDef as event_def;
    ghost use Rattle.std.specs.Coded.{coded_list};

    ghost Value = { List EventDef };

    ghost coded = { coded_list event_def.the_row.coded };

    ghost use Rattle.event_trees.specs.Rows.{defs_of, AreRows, ArePlaces};

    ghost view = { λ d. defs_of d.rows.items };

    ghost invariant = { λ d. AreRows d.rows.items × ArePlaces d.rows.items d.places };
}

impl Defs {
    ghost use Rattle.event_trees.specs.declared.defs.EventDef.{EventDef};
    ghost use Rattle.event_trees.specs.EventPath.{path_of};
    ghost use Rattle.app_api.specs.declared.registration.Reg.{Reg};
    ghost use Rattle.event_trees.specs.Private.{IsPrivate};

    /// No user-defined events.
    pub fn new(alloc: Global) -> Defs
        ensures { result ≡ [] }
    {
        Defs {
            rows: Vec::new(alloc),
            places: [None; NUMBERS],
        }
    }

    /// Adds an event. An error is want of memory, and changes nothing.
    pub fn add(&mut self, d: EventDef) -> Result<(), AllocError>
        requires low { 1 ≤ d.number }
        requires high { d.number ≤ 255 }
        requires absent { found self.old d.number ≡ None }
        requires parent { IsTrue (is_event self.old d.parent) }
        requires depth { length (path self.old d.parent) ≤ 7 }
        ensures ok { OnOk result (self.new ≡ self.old ++ d ∷ []) }
        ensures map { OnOk result ((event : ℕ) → found self.new event
            ≡ (if d.number == event then Some d else found self.old event)) }

        // What was there stays: the paths of events, and private lists.
        ensures paths { OnOk result ((event : ℕ) → IsTrue (is_event self.old event)
            → path self.new event ≡ path self.old event) }
        ensures private { OnOk result ((list : List Reg) → IsPrivate self.old list → IsPrivate self.new list) }
        ensures err { OnErr result (self.new ≡ self.old) }
    {
        let path = self.path_of(d.parent).with(d.number);
        let number = d.number as usize;
        let place = self.count();
        self.rows.push(Row { def: d, path })?;
        self.places[number] = Some(place);
        Ok(())
    }

    /// The definition of an event.
    pub fn find(&self, number: u16) -> Option<&EventDef>
        ensures { option_copied result ≡ found self.now number }
    {
        match find_row(&self.rows, &self.places, number) {
            Some(row) => Some(&row.def),
            None => None,
        }
    }

    /// The root of an event and the length of its path. None where the event is neither a root nor there.
    pub fn root_of(&self, event: u16) -> Option<(u16, u8)>
        ensures none { IsSome result ↔ IsTrue (is_event self.now event) }
        ensures root { IfSome result (λ r. r.0 ≡ slice_index (path self.now event) 0) }
        ensures len { IfSome result (λ r. r.1 ≡ length (path self.now event)) }
    {
        if !self.is_event(event) {
            return None;
        }
        let path = self.path_of(event);
        Some((path.events()[0], path.len()))
    }

    /// What the paths are: a built-in event is its own root, and a defined one stands under its parent.
    pub fn paths(&self)
        ensures defs { AreDefs self.now }
        ensures root { (event : ℕ) → found self.now event ≡ None → path self.now event ≡ event ∷ [] }
        ensures defined { (event : ℕ) (d : EventDef) → found self.now event ≡ Some d →
            path self.now event ≡ path self.now d.parent ++ event ∷ [] }
        ensures len { (event : ℕ) → IsTrue (is_event self.now event) → length (path self.now event) ≤ 8 }
    {
        let _rows = &self.rows;
    }

    /// Whether a number is a built-in event or a defined one.
    pub(crate) fn is_event(&self, event: u16) -> bool
        ensures { result ≡ is_event self.now event }
    {
        is_built_in(event) || self.find(event).is_some()
    }

    // How many events there are, before one more is added.
    fn count(&self) -> u8
        ensures { result ≡ length self.now }
    {
        self.rows.len() as u8
    }

    /// The path of an event.
    pub(crate) fn path_of(&self, event: u16) -> EventPath
        requires { IsTrue (is_event self.now event) }
        ensures path { path_of result ≡ path self.now event }
        ensures defs { AreDefs self.now }
        ensures short { length (path self.now event) ≤ 8 }
        ensures long { 1 ≤ length (path self.now event) }
    {
        match find_row(&self.rows, &self.places, event) {
            Some(row) => row.path,
            None => EventPath::empty().with(event),
        }
    }
}

// The row of an event.
fn find_row<'a>(rows: &'a [Row], places: &[Option<u8>], number: u16) -> Option<&'a Row>
    requires rows { AreRows rows.now }
    requires places { ArePlaces rows.now places.now }
    ensures { option_copied result ≡ row_of rows.now number }
{
    let number = number as usize;
    if number >= places.len() {
        return None;
    }
    match places[number] {
        Some(place) => Some(&rows[place as usize]),
        None => None,
    }
}
