//! Where a worker is: in a thread of its own, or in the one that called.

ghost use Rattle.std.specs.Prelude.{◌≡◌};
ghost use Rattle.control_script.specs.Order.{commands_of};
ghost use Rattle.lane_worker.specs.Worked.{WorkedOn};
ghost use Rattle.worker_pool.specs.Inputs.{IsPlaced};

use control_script::Script;
use lane_core::Recorder;
use lane_worker::Worker;
use std::snapshot::Snapshot;
use std::sync::atomic::{AtomicBool, Ordering};
use std::thread::{Promise, PromisedHandle, Scope};

/// What the thread of a worker promises: the worker that comes back has done what a worker does, from this start and
/// under this script.
#[derive(Drop)]
pub(crate) struct Works<L: Recorder + Drop> {
    pub(crate) start: Snapshot<Worker<L>>,
    pub(crate) script: Snapshot<Script>,
}

impl<L: Recorder + Drop> Promise<Worker<L>> for Works<L> {
    ghost use Rattle.control_script.specs.Order.{commands_of};
    ghost use Rattle.lane_worker.specs.Worked.{WorkedOn};

    ghost kept_by = { λ p w. WorkedOn L.Recorder (commands_of p.script.value) p.start.value w };
}

/// Where a worker is.
#[derive(Drop)]
pub(crate) enum WorkerPlace<L: Recorder + Drop> {
    /// In a thread of its own.
    Thread(PromisedHandle<Worker<L>, Works<L>>),
    /// In this thread: it works where it is asked to.
    Inline(Worker<L>),
}

/// Starts the thread of a worker. Where none can be started, its stop flag is raised, and it works in this
/// thread until its packet ring shows no packet.
pub(crate) fn start_worker<
    's,
    E: 's,
    L: Recorder + Drop + Send + 's,
    F: FnOnce() -> Worker<L> + Send + 's,
>(scope: &Scope<'s, E>, promise: Works<L>, stop: &AtomicBool, f: F) -> WorkerPlace<L>
    requires runs { F.pre f }
    requires keeps { (w : _) → F.post f w
        → WorkedOn L.Recorder (commands_of promise.script.value) promise.start.value w }
    ensures { IsPlaced L.Recorder (commands_of promise.script.value) promise.start.value result }
{
    match scope.spawn_with(promise, f) {
        Ok(handle) => WorkerPlace::Thread(handle),
        Err(refused) => {
            stop.store(true, Ordering::SeqCst);
            WorkerPlace::Inline((refused.value)())
        }
    }
}

/// Starts the thread of a worker, as `start_worker` does, from the worker and what it does. So neither has to be known
/// where the other is handed over.
pub(crate) fn start_work<
    's,
    E: 's,
    L: Recorder + Drop + Send + 's,
    F: FnOnce(Worker<L>) -> Worker<L> + Send + 's,
>(
    scope: &Scope<'s, E>,
    promise: Works<L>,
    stop: &AtomicBool,
    worker: Worker<L>,
    f: F,
) -> WorkerPlace<L>
    requires runs { F.pre f worker }
    requires keeps { (w : _) → F.post f worker w
        → WorkedOn L.Recorder (commands_of promise.script.value) promise.start.value w }
    ensures { IsPlaced L.Recorder (commands_of promise.script.value) promise.start.value result }
{
    let run = move || -> Worker<L>
        requires { F.pre f worker }
        ensures { F.post f worker result }
    { f(worker) };
    start_worker(scope, promise, stop, run)
}
