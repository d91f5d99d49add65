//! What a run is to do, and who does it.

ghost use Rattle.std.specs.Prelude.{◌≡◌};

use crate::Output;
use control_script::Script;
use native_filters::NativeBook;
use std::alloc::Global;

/// What a run does with the packets of a capture, the same from the first to the last.
#[derive(Drop)]
pub(crate) struct Plan<'a> {
    pub(crate) alloc: Global,
    pub(crate) script: &'a Script,
    pub(crate) natives: &'a NativeBook,
    pub(crate) output: Output,
    /// How many workers share the packets: 1 to 16.
    pub(crate) workers: usize,
}

/// What a run is asked to do, with an application of anybody's.
#[derive(Drop)]
pub struct Task<'a, A> {
    /// Its presets are registered for each connection, and it is called where they are.
    pub app: A,
    /// Lawful with these presets.
    pub script: &'a Script,
    /// What is written. A summary is of a capture that is made for the run.
    pub output: Output,
    /// How many workers share the packets: 1 to 16.
    pub workers: usize,
}

impl<A> Task<'_, A> {
    // What the task does with packets, with the native filters that they are asked of.
    pub(crate) fn plan<'b>(&'b self, alloc: Global, natives: &'b NativeBook) -> Plan<'b>
        ensures script { result.script.now ≡ self.now.script.now }
        ensures output { result.output ≡ self.now.output }
        ensures workers { result.workers ≡ self.now.workers }
    {
        Plan {
            alloc,
            script: self.script,
            natives,
            output: self.output,
            workers: self.workers,
        }
    }
}

/// Who runs with several workers: what starts their threads, and what is told of them.
#[derive(Drop)]
pub struct Crew<'a, R, G> {
    /// Starts the threads and waits for them.
    pub rt: &'a R,
    /// Is told what the threads are about to do; it is there for tests.
    pub gate: &'a G,
}
