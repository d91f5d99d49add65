//! A command with its stamp.

use forest_versions::{Command, Stamp};

/// A command, and when it comes into force.
#[derive(Drop)]
pub(crate) struct Stamped {
    pub(crate) stamp: Stamp,
    pub(crate) command: Command,
}
