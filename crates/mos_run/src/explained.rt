//! Why a run over a file ends.

ghost use Rattle.std.specs.Prelude.{◌≡◌};
ghost use Rattle.mos_run.specs.Explained.{explained, met_in};

use crate::refusal::RunError;
use capture_replay::ReplayError;
use pcapng_source::NgFault;
use worker_pool::VersionList;

// Why a run ends: a refusal of the file that its source met stands in place of the fault by which the source stops there.
fn met_in(fault: Option<NgFault>, error: ReplayError) -> RunError
    ensures { result ≡ met_in fault error }
{
    match (fault, error) {
        (Some(fault), ReplayError::ReadFault) => RunError::from(fault),
        (_, error) => RunError::from(error),
    }
}

/// What a run comes to whose replay came to this, and whose source met this refusal of the file, or none.
pub(crate) fn explain(
    fault: Option<NgFault>,
    ran: Result<VersionList, ReplayError>,
) -> Result<VersionList, RunError>
    ensures { result ≡ explained fault ran }
{
    match ran {
        Ok(versions) => Ok(versions),
        Err(error) => Err(met_in(fault, error)),
    }
}
