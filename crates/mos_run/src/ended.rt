//! How a run ended.

ghost use Rattle.std.specs.Prelude.{◌≡◌, ◌≢◌, ◌⊎◌, [], IsOk, IsErr};
ghost use Rattle.mos_run.specs.Refusal.{status_of};
ghost use Rattle.mos_run.specs.Run.{TellsOf};

use crate::refusal::RunError;
use crate::telling::tell;
use mos_bytes::{Failed, Sink};
use std::alloc::Global;
use worker_pool::VersionList;

/// How a run ended.
#[derive(Debug, Drop)]
pub struct Ended {
    /// 0 where all was written, else the status of the refusal.
    pub status: u8,
    /// The version of each record, in order of name; empty where the status isn't 0.
    pub versions: VersionList,
}

impl Ended {
    /// A run all of whose output was written, with the version of each record.
    pub(crate) fn done(versions: VersionList) -> Ended
        ensures status { result.status ≡ 0 }
        ensures versions { result.versions ≡ versions }
    {
        Ended {
            status: 0,
            versions,
        }
    }
}

/// Ends a run: tells the refusal on `err`. Where memory for its line is refused, that is told instead.
pub fn refuse<E: Sink>(alloc: Global, err: &mut E, error: RunError) -> Ended
    ensures status { (result.status ≡ status_of error) ⊎ (result.status ≡ 6) }
    ensures usage { error ≡ RunError.Usage → result.status ≡ 1 }
    ensures told { TellsOf error result.status
        (E.taken err.old) (E.taken err.new) (E.faults err.old) (E.faults err.new) }
    ensures versions { result.versions ≡ [] }
    ensures lasts { E.lasting err.new ≡ E.lasting err.old }
{
    Ended {
        status: tell(alloc, err, error).status(),
        versions: VersionList {
            items: Vec::new(alloc),
        },
    }
}

/// How a run ends whose last bytes were handed on so: what had ended well has met a fault of writing where they weren't.
pub(crate) fn handed_on<E: Sink>(
    alloc: Global,
    ended: Ended,
    handed: Result<(), Failed>,
    err: &mut E,
) -> Ended
    ensures whole { result.status ≡ 0 → IsOk handed }
    ensures stays { IsOk handed ⊎ (ended.status ≢ 0) → (result ≡ ended) × (err.new ≡ err.old) }
    ensures status { IsErr handed → ended.status ≡ 0 → (result.status ≡ 5) ⊎ (result.status ≡ 6) }
    ensures told { IsErr handed → ended.status ≡ 0 → (result.versions ≡ [])
        × TellsOf RunError.WriteFault result.status
        (E.taken err.old) (E.taken err.new) (E.faults err.old) (E.faults err.new) }
    ensures lasts { E.lasting err.new ≡ E.lasting err.old }
{
    if ended.status == 0 && handed.is_err() {
        return refuse(alloc, err, RunError::WriteFault);
    }
    ended
}
