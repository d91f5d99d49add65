//! A run that is forwarded: this thread reads the capture, sends its packets to the workers, and writes what they let
//! pass.

use forward_dispatch::Dealing;
use lane_core::Recorder;
use lane_worker::{Gate, WorkerContext};
use mos_bytes::{Sink, Source};
use pcap_source::Capture;
use std::mem;
use std::sync::Wait;
use worker_pool::PoolError;
use worker_pool::team::dispatch::Whole;
use worker_pool::team::feed::Feed;
use worker_pool::team::lane_input::LaneInput;

/// Reads a capture, and writes it again without its dropped packets.
#[derive(Drop)]
pub(crate) struct ForwardFeed<'a, R, L: Recorder + Drop, S, O, G> {
    pub(crate) context: &'a WorkerContext<'a, R, G>,
    pub(crate) dealing: &'a mut Dealing<L>,
    pub(crate) capture: &'a mut Capture,
    pub(crate) source: &'a mut S,
    pub(crate) out: &'a mut O,
}

impl<'a, R: Wait, L: Recorder + Drop, S: Source, O: Sink, G: Gate> Feed<L>
    for ForwardFeed<'a, R, L, S, O, G> {
    ghost use Rattle.std.specs.Prelude.{◌≡◌};
    ghost use Rattle.forward_dispatch.specs.Streamed.{ReadsAndWrites, Streamed};
    ghost use Rattle.forward_run.specs.Streaming.{MayStream};

    ghost script = { λ d. d.context.now.script.now };

    ghost may = { λ d begins. MayStream begins d.capture.now d.dealing.now (O.taken d.out.now) };

    ghost did = { λ d e begins frames result.
        Streamed begins frames e.dealing.now.way.all_answers.items d.capture.now (S.left d.source.now)
        (S.left e.source.now) (O.taken d.out.now) (O.taken e.out.now) result
        × ReadsAndWrites S.Source O.Sink d.capture.now e.capture.now d.source.now e.source.now d.out.now e.out.now result
        × (e.dealing.ghost_name ≡ d.dealing.ghost_name)
        × (e.source.ghost_name ≡ d.source.ghost_name) × (e.out.ghost_name ≡ d.out.ghost_name)
        × (e.capture.ghost_name ≡ d.capture.ghost_name) };

    // The inputs are lent to the dispatcher for as long as it streams.
    fn send_packets(&mut self, inputs: &mut Vec<LaneInput<L>>) -> Result<Whole, PoolError> {
        mem::swap(&mut self.dealing.inputs, inputs);
        let read = self
            .dealing
            .stream(self.context, self.capture, self.source, self.out);
        mem::swap(&mut self.dealing.inputs, inputs);
        read
    }
}
