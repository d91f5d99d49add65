//! Where tests hold threads.

/// Is told what threads are about to do. It has no meaning for any clause: tests hold threads by it. Where it waits,
/// its `impl` has a parameter that may wait, as in `impl<R: Wait> Gate for Barrier<R>`.
pub trait Gate {
    /// The worker of a lane is about to take up the packet of an index, and then looks into its command ring.
    fn pause(&self, lane: usize, index: u64);

    /// The control thread has pushed so many commands to all lanes.
    fn published(&self, count: usize);
}

/// A gate that is always open.
#[derive(Clone, Copy)]
pub struct OpenGate;

impl Gate for OpenGate {
    fn pause(&self, _lane: usize, _index: u64) {}

    fn published(&self, _count: usize) {}
}
