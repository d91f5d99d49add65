//! A worker: a lane with its ends of the rings by which other threads reach it, and its work. It is generic in the lane
//! (`Recorder`). No thread is started here.
//!
//! `work` takes a batch of packets out of its ring. For each packet it takes the places in the script that it needs
//! (`src/places.rt`), and hands it to the lane (`src/turn.rt`). The batch then goes on with the verdicts, or back for its memory
//! (`src/ends.rt`); no memory is taken for either. `work_off` does the same in place with what is left in a ring once its thread
//! has ended. A thread that waits spins at first, and then sleeps for longer and
//! longer (`src/backoff.rt`). One that works keeps memory at hand (`src/at_hand.rt`). How a lane takes the commands of a script
//! is one law for all runs, also for one without rings (`src/commands.rt`).
//! Contract: one relation between the worker handed in and the one handed back, which composes: what two calls did is what one
//! longer call does. `give_commands` has a relation of its own, between the lane before and after it (`specs/Given.antt`).
//! Begin with `specs/Steps.antt` and `specs/Worked.antt`, then `work` in `src/worker.rt`; `proofs/Composed.antt` shows that the
//! relation composes.
//! Tests: `worker_tests` (workers).
#![tactic(auto)]

mod at_hand;
mod backoff;
mod commands;
mod context;
mod ends;
mod gate;
mod left;
mod places;
mod turn;
mod worker;

pub use at_hand::keep_at_hand;
pub use backoff::Backoff;
pub use commands::give_commands;
pub use context::{WorkerContext, context_of};
pub use gate::{Gate, OpenGate};
pub use left::work_off;
pub use worker::{Worker, take_turn, work, work_in};
