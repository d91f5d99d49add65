//! Records as a lane keeps them.

ghost use Rattle.std.specs.Prelude.{◌≡◌, ◌++◌, OnOk};
ghost use Rattle.app_api.specs.declared.app.Tally.{Tally as TallyOf};
ghost use Rattle.app_api.specs.App.{Meaning};
ghost use Rattle.report_text.specs.Kept.{kept_record};
ghost use Rattle.connection_core.specs.History.{drops_of};
ghost use Rattle.lane_core.specs.End.{ended, new_slot};

use app_api::{DropList, Tally, Verdict};
use connection_core::Notes;
use report_text::{KeptRecord, RecordKind};
use std::alloc::{AllocError, Global};

/// A record as a lane keeps it, while it is under way and at the end: all that the report will tell of it, but for the fields of its
/// application.
#[derive(Drop)]
pub struct RecordUnderWay {
    /// The number of its first packet.
    pub name: u64,
    pub kind: RecordKind,
    /// How many commands were in force for it.
    pub version: u32,
    /// What the application keeps, and the callbacks where these are kept.
    pub notes: Notes,
    /// Its dropped packets.
    pub drops: DropList,
}

impl RecordUnderWay {
    /// A record of no callback, with the tally of a connection that starts. It takes no memory.
    pub(crate) fn new(
        alloc: Global,
        name: u64,
        kind: RecordKind,
        version: u32,
        tally: Tally,
    ) -> RecordUnderWay
        ensures { result ≡ new_slot name kind version tally }
    {
        RecordUnderWay {
            name,
            kind,
            version,
            notes: Notes::new(alloc, tally),
            drops: DropList {
                items: Vec::new(alloc),
            },
        }
    }

    /// What is written of it.
    pub fn kept(&self) -> KeptRecord<'_>
        ensures { (app : Meaning) → kept_record app result ≡ ended app self.now }
    {
        KeptRecord {
            name: self.name,
            kind: self.kind,
            version: self.version,
            callbacks: &self.notes.entries,
            drops: &self.drops,
            tally: &self.notes.tally,
        }
    }

    /// Notes what became of a packet.
    #[inline(always)]
    pub(crate) fn note(&mut self, number: u64, verdict: Verdict) -> Result<(), AllocError>
        ensures noted { OnOk result
            (self.new ≡ record self.old { drops = self.old.drops ++ drops_of verdict number }) }
    {
        match verdict {
            Verdict::Pass => Ok(()),
            Verdict::Drop(reason) => {
                self.drops.items.push((number, reason))?;
                Ok(())
            }
        }
    }
}
