//! An open connection, as a lane keeps it.

ghost use Rattle.std.specs.Prelude.{◌≡◌};

use connection_core::Flow;
use flow_table::Endpoint;
use flow_timers::Moment;

/// An open connection, with the place of its record under way.
#[derive(Drop)]
pub(crate) struct Connection {
    /// The place of its record among those of the lane.
    pub(crate) place: usize,
    /// Who sent the segment that opened it.
    pub(crate) client: Endpoint,
    /// How many commands were in force at its start. It lives under these to its end.
    pub(crate) version: u32,
    /// The number of its last packet.
    pub(crate) last: u64,
    /// When that came.
    pub(crate) moment: Moment,
    pub(crate) flow: Flow,
}
