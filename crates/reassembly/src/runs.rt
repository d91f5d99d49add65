//! A run of accepted positions, and the search among runs in order.

ghost use Rattle.reassembly.specs.Runs.{AreOrdered, IsCursor};

/// The positions from `start` to below `end`, all of them accepted.
#[derive(Clone, Copy, Debug, PartialEq, Eq)]
pub struct Run {
    pub start: u64,
    pub end: u64,
}

/// How many runs end at `position` or below it.
pub fn ended_by(runs: &[Run], position: u64) -> usize
    requires { AreOrdered runs.now }
    ensures { IsCursor runs.now result position }
{
    runs.partition_point(|run| run.end <= position)
}
