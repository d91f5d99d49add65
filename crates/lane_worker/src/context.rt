//! What all workers of a run share.

ghost use Rattle.std.specs.Prelude.{◌≡◌};

use control_script::Script;
use native_filters::NativeBook;
use std::alloc::Global;
use std::sync::atomic::AtomicBool;

/// What all workers of a run share, as one value: who works on a lane, in whichever thread, takes one reference for all
/// of it.
#[derive(Drop)]
pub struct WorkerContext<'a, R, G> {
    pub rt: &'a R,
    pub alloc: Global,
    /// The script of the run.
    pub script: &'a Script,
    pub natives: &'a NativeBook,
    pub gate: &'a G,
    /// Raised where a lane fails.
    pub failed: &'a AtomicBool,
}

/// Makes a context of its parts. A closure for a scope holds them one by one: what it needs to be handed to a thread is then
/// shown part by part.
pub fn context_of<'a, R, G>(
    rt: &'a R,
    alloc: Global,
    script: &'a Script,
    natives: &'a NativeBook,
    gate: &'a G,
    failed: &'a AtomicBool,
) -> WorkerContext<'a, R, G>
    ensures script { result.script.now ≡ script.now }
{
    WorkerContext {
        rt,
        alloc,
        script,
        natives,
        gate,
        failed,
    }
}
