//! The commands of a script, and when they come into force.

use app_api::{Reg, Rule};
use event_trees::EventDef;
use reassembly::Policy;

/// When a command comes into force.
#[derive(Clone, Copy, Debug, PartialEq, Eq)]
pub enum Stamp {
    /// For each record that begins at the packet with this number (from 0) or later, and for none before it.
    At(u64),
    /// At any moment, which may differ between lanes.
    Live,
}

/// A command: one change of what is in force for the connections that begin after it.
#[derive(Drop)]
pub enum Command {
    /// Defines an event (1 to 255) under one that is there. Events are never removed.
    Event(EventDef),
    /// Adds a registration (16 to 255) of an event that is there.
    Register(Reg),
    /// Removes the registration with this number (1 to 255), a preset or one of a script.
    Unregister(u8),
    /// Sets the receive buffer in bytes, 1 to 1,048,576.
    Buffer(u32),
    /// Sets which byte stays where a segment brings another one for a position that has one.
    Overlap(Policy),
    /// Adds a rule (1 to 255).
    AddRule(Rule),
    /// Removes the rule with this number (1 to 255).
    RemoveRule(u8),
    /// Sets for how many seconds, 1 to 4,294,967,295, a connection may be silent. One that was silent for longer has
    /// ended.
    Idle(u32),
}
