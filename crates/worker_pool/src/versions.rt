//! The versions of a run's records.

ghost use Rattle.std.specs.Prelude.{◌≡◌, IfOk, map};

use lane_core::{RecordUnderWay, version_of_each};
use std::alloc::{AllocError, Global};
use std::marker::Model;

/// A version for each record, in order of name. Contracts see the list.
#[derive(Debug, Drop)]
pub struct VersionList {
    pub items: Vec<u32>,
}

impl Model for VersionList {
    ghost use Rattle.std.specs.Prelude.{List, ℕ};

    ghost Value = { List ℕ };

    ghost view = { λ l. l.items.items };
}

impl VersionList {
    /// The versions in order.
    pub fn as_slice(&self) -> &[u32]
        ensures { result.now ≡ self.now }
    {
        self.items.as_slice()
    }
}

/// The versions of records.
pub fn versions_of(alloc: Global, records: &[RecordUnderWay]) -> Result<VersionList, AllocError>
    ensures { IfOk result (λ versions. versions ≡ map (λ r. r.version) records.now) }
{
    Ok(VersionList {
        items: version_of_each(alloc, records)?,
    })
}
