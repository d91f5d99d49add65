//! The end of a run: the workers come back from where they are.

ghost use Rattle.std.specs.Prelude.{◌≡◌, ◌≤◌, [], List, length, All};
ghost use Rattle.std.specs.List.{AllZip};
ghost use Rattle.std.specs.Vec.{vec_capacity};
ghost use Rattle.forest_versions.specs.declared.command.Command.{Command};
ghost use Rattle.control_script.specs.Order.{commands_of};
ghost use Rattle.lane_worker.specs.declared.worker.Worker.{Worker as Begun};
ghost use Rattle.lane_worker.specs.Worked.{WorkedOn};
ghost use Rattle.worker_pool.specs.Inputs.{IsPlaced};
ghost use Rattle.worker_pool.specs.AtWork.{IsAtWork, IsBack};

use crate::team::lane_input::{LaneInput, flush};
use crate::team::worker_place::WorkerPlace;
use lane_core::Recorder;
use lane_rings::FlatBatch;
use lane_worker::{Gate, Worker, WorkerContext, work_off};
use std::collections::VecDeque;
use std::sync::Wait;
use std::thread::Threads;

// A worker from where it is, once its thread has ended.
fn worker_back<R: Threads + Wait, L: Recorder + Drop>(rt: &R, place: WorkerPlace<L>) -> Worker<L>
    ensures { (script : List Command) (begin : Begun L) → IsPlaced L.Recorder script begin place
        → WorkedOn L.Recorder script begin result }
{
    match place {
        WorkerPlace::Thread(handle) => handle.join(rt),
        WorkerPlace::Inline(worker) => worker,
    }
}

// Waits for the worker of an input, sends what is still unsent, and works off what is left in its packet ring.
fn finish_one<R: Threads + Wait, L: Recorder + Drop, G: Gate>(
    context: &WorkerContext<'_, R, G>,
    input: LaneInput<L>,
) -> Worker<L>
    requires at_work { IsAtWork L.Recorder (commands_of context.now.script.now) input }
    ensures back { IsBack L.Recorder (commands_of context.now.script.now) input result }
{
    let LaneInput {
        packets,
        unsent,
        place,
    } = input;
    let place = WorkerPlace::Inline(worker_back(context.rt, place));
    let mut input = LaneInput {
        packets,
        unsent,
        place,
    };
    flush(context, &mut input, FlatBatch::new(context.alloc));
    let LaneInput { packets, place, .. } = input;
    let mut packets = packets;
    let worker = worker_back(context.rt, place);
    work_off(context, worker, &mut packets)
}

/// Waits for the workers of all inputs, whose stop flags were raised, and works off what is left in their packet rings.
/// The workers come back in order, in `room`, which is empty and has a place for each.
///
/// All commands have to be told of before, since a packet may wait for its places.
pub(crate) fn finish_all<R: Threads + Wait, L: Recorder + Drop, G: Gate>(
    context: &WorkerContext<'_, R, G>,
    inputs: Vec<LaneInput<L>>,
    room: Vec<Worker<L>>,
) -> Vec<Worker<L>>
    requires at_work { All (IsAtWork L.Recorder (commands_of context.now.script.now)) inputs.items }
    requires empty { room.items ≡ [] }
    requires places { length inputs.items ≤ vec_capacity room }
    ensures back { AllZip (IsBack L.Recorder (commands_of context.now.script.now)) inputs.items result.items }
{
    let mut inputs = VecDeque::from(inputs);
    let mut workers = room;
    while let Some(input) = inputs.pop_front() {
        workers.push_reserved(finish_one(context, input));
    }
    workers
}
