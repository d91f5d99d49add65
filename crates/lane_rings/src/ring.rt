//! A ring between two threads: one end sends, the other takes, in the same order.

ghost use Rattle.std.specs.Prelude.{◌≡◌, ◌<◌, ◌≤◌, ◌+◌, ◌++◌, [], ◌∷◌, None, length, IfOk, OnOk, IfErr, IsOk, IfSome};
ghost use Rattle.std.specs.Option.{IsSome};
ghost use mathlib.Core.List.{IsPrefix};
ghost use Rattle.lane_rings.specs.Ring.{sent, free, taken, known, AreEnds, SameTx, SameRx};

use rtrb::{Consumer, Producer, PushError, RingBuffer};
use std::alloc::{AllocError, Global};

/// The end of a ring that sends. It may be handed to a thread.
#[derive(Drop)]
pub struct RingTx<T: Drop> {
    producer: Producer<T>,
}

/// The end of a ring that takes. It may be handed to a thread.
#[derive(Drop)]
pub struct RingRx<T: Drop> {
    consumer: Consumer<T>,
}

/// A ring of `cap` places, which takes its memory at once. It asks at least one place.
pub fn ring<T: Drop>(alloc: Global, cap: usize) -> Result<(RingTx<T>, RingRx<T>), AllocError>
    requires places { 1 ≤ cap }
    ensures ends { IfOk result (λ r. AreEnds r.0 r.1) }
    ensures sent { IfOk result (λ r. (sent r.0 ≡ []) × (free r.0 ≡ cap)) }
    ensures taken { IfOk result (λ r. (taken r.1 ≡ []) × (known r.1 ≡ [])) }
{
    let (producer, consumer) = RingBuffer::new(alloc, cap)?;
    Ok((RingTx { producer }, RingRx { consumer }))
}

impl<T: Drop> RingTx<T> {
    /// Sends an item where a place is known to be free or found free, else hands it back. It takes no memory.
    pub fn send(&mut self, item: T) -> Result<(), T>
        ensures ring { SameTx self.old self.new }
        ensures ok { OnOk result (sent self.new ≡ sent self.old ++ item ∷ []) }
        ensures fewer { OnOk result (free self.old ≤ free self.new + 1) }
        ensures full { IfErr result (λ back. (back ≡ item) × (sent self.new ≡ sent self.old)
            × (free self.new ≡ 0)) }
        ensures succeeds { 0 < free self.old → IsOk result }
    {
        match self.producer.push(item) {
            Ok(()) => Ok(()),
            Err(PushError::Full(back)) => Err(back),
        }
    }
}

impl<T: Drop> RingRx<T> {
    /// Takes the oldest item that is left; none where nothing is known and none is found. It takes no memory.
    pub fn take(&mut self) -> Option<T>
        ensures ring { SameRx self.old self.new }
        ensures some { IfSome result (λ item. taken self.new ≡ taken self.old ++ item ∷ []) }
        ensures order { IfSome result (λ item. IsPrefix (known self.old) (item ∷ known self.new)) }
        ensures none { result ≡ None → (taken self.new ≡ taken self.old) × (known self.new ≡ []) }
        ensures succeeds { 0 < length (known self.old) → IsSome result }
    {
        self.consumer.pop().ok()
    }

    /// How many items are left, seen from a thread that holds both ends of the ring. What was taken and then what is
    /// left is what was sent, in order, and all that is left is known. It takes no memory.
    pub fn beside(&mut self, tx: &mut RingTx<T>) -> usize
        requires ends { AreEnds tx.old self.old }
        ensures ring { SameRx self.old self.new }
        ensures tx { SameTx tx.old tx.new × (sent tx.new ≡ sent tx.old) × (free tx.old ≤ free tx.new) }
        ensures taken { taken self.new ≡ taken self.old }
        ensures known { IsPrefix (known self.old) (known self.new) }
        ensures left { result ≡ length (known self.new) }
        ensures all { taken self.new ++ known self.new ≡ sent tx.new }
    {
        self.consumer.slots_beside(&mut tx.producer)
    }
}
