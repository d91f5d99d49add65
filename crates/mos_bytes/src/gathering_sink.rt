//! A sink that gathers small pieces into large ones, for a sink of which each call costs much.

ghost use Rattle.std.specs.Prelude.{◌≡◌, ◌≢◌, ◌↔◌, ◌+◌, ◌<◌, ◌≤◌, ◌++◌, [], length, IsOk, IsErr, OnOk, IfOk, IfErr, vec_capacity};
ghost use Rattle.std.specs.Io.KnownBytes.{Appends, Keeps, append_known};
ghost use Rattle.mos_bytes.specs.Causes.{HasCause, Rose};
ghost use Rattle.mos_bytes.specs.Writes.{WriteAdds};
ghost use Rattle.mos_bytes.specs.Gathers.{HasRisen, IsBetween, IsBetween-prop};

use crate::{Failed, Sink};
use std::alloc::{AllocFailed, Global};
use std::snapshot::Snapshot;

// How many bytes are held back at most.
const BUFFER: usize = 65536;

/// A sink over a sink. It holds small pieces back, at most 65,536 bytes of them, and hands them on in one call where the next
/// has no room, or where it is finished. A piece of 65,536 bytes or more is handed on as it is, behind what was held.
///
/// What it tells as taken is what it was given: the sink below has taken a front of that, and all of it once `finish` answers
/// `Ok`. A fault of the sink below is told by the call that met it, which may be a later one than the call that gave the bytes.
/// From then on each call fails and the sink below isn't called: it has taken a front of what was given, of a length that
/// nobody tells. The count of faults is that of the sink below, and one for each call that failed.
#[derive(Drop)]
pub struct GatheringSink<S: Sink> {
    inner: S,
    // What wasn't handed on yet, and after a fault what was handed on in the call that failed.
    held: Vec<u8>,
    // The sink below as it was handed in.
    start: Snapshot<S>,
    // The sink below as it was before what is held.
    before: Snapshot<S>,
    // How many calls have failed.
    failures: u64,
    ghost within: { length held.items ≤ 65536 },
    ghost room: { 65536 ≤ vec_capacity held },
    ghost between: { IsBetween (S.taken start.value) (S.taken inner) (append_known (S.taken before.value) held.items) } by { IsBetween-prop (S.taken start.value) (S.taken inner) (append_known (S.taken before.value) held.items) },
    ghost waits: { failures ≡ 0 → S.taken inner ≡ S.taken before.value },
    ghost counts: { S.faults start.value ≤ S.faults inner },
    ghost cause: { 0 < failures → HasRisen (S.faults start.value) (S.faults inner) },
}

impl<S: Sink> GatheringSink<S> {
    ghost use Rattle.mos_bytes.specs.Gathering.{DoesNothing, Finishes, HandsOn, IsNew, Tells, inner_of, start_of, held_of, failures_of, given_to, gathering_faults};

    /// A sink over this one. All of its memory is taken here; where that is refused, `inner` comes back.
    pub fn new(alloc: Global, inner: S) -> Result<Self, AllocFailed<S>>
        ensures ok { IfOk result (λ g. IsNew g inner) }
        ensures err { IfErr result (λ refused. refused.value ≡ inner) }
    {
        let Ok(held) = Vec::with_capacity(alloc, BUFFER) else {
            return Err(AllocFailed { value: inner });
        };
        let start = Snapshot::of(&inner);
        let before = Snapshot::of(&inner);
        Ok(GatheringSink {
            inner,
            held,
            start,
            before,
            failures: 0,
        })
    }

    // Hands on what is held.
    fn hand_on(&mut self) -> Result<(), Failed>
        requires { failures_of self.old ≡ 0 }
        ensures handed { HandsOn self.old self.new result }
        ensures empty { OnOk result (held_of self.new ≡ []) }
    {
        if let Err(failed) = self.inner.write_all(&self.held) {
            self.failures = 1;
            return Err(failed);
        }
        self.held.clear();
        self.before = Snapshot::of(&self.inner);
        Ok(())
    }

    // Makes room for so many bytes, or lets nothing be held where they are too many.
    fn make_room(&mut self, len: usize) -> Result<(), Failed>
        requires { failures_of self.old ≡ 0 }
        ensures handed { HandsOn self.old self.new result }
        ensures room { OnOk result (len < 65536 → length (held_of self.new) + len ≤ 65536) }
        ensures empty { OnOk result (65536 ≤ len → held_of self.new ≡ []) }
        ensures fits { len < 65536 → length (held_of self.old) + len ≤ 65536
            → DoesNothing self.old self.new result }
    {
        if len > BUFFER - self.held.len() {
            self.hand_on()?;
        }
        Ok(())
    }

    // Holds a piece that has room.
    fn hold(&mut self, bytes: &[u8])
        requires sound { failures_of self.old ≡ 0 }
        requires room { length (held_of self.old) + length bytes.now ≤ 65536 }
        ensures bytes { Appends (given_to self.old) (given_to self.new) bytes.now }
        ensures held { held_of self.new ≡ held_of self.old ++ bytes.now }
        ensures inner { inner_of self.new ≡ inner_of self.old }
        ensures start { start_of self.new ≡ start_of self.old }
        ensures sound { failures_of self.new ≡ 0 }
    {
        if self.held.extend_from_slice(bytes).is_err() {
            unreachable!();
        }
    }

    // Hands on a piece, where nothing is held.
    fn pass(&mut self, bytes: &[u8]) -> Result<(), Failed>
        requires sound { failures_of self.old ≡ 0 }
        requires empty { held_of self.old ≡ [] }
        ensures bytes { WriteAdds (given_to self.old) (given_to self.new) result bytes.now }
        ensures told { Tells self.old self.new result }
    {
        let passed = self.inner.write_all(bytes);
        self.before = Snapshot::of(&self.inner);
        if passed.is_err() {
            self.failures = 1;
        }
        passed
    }

    // Fails as a call before did.
    fn fail_again(&mut self) -> Result<(), Failed>
        requires { failures_of self.old ≢ 0 }
        ensures fails { IsErr result }
        ensures given { given_to self.new ≡ given_to self.old }
        ensures told { Tells self.old self.new result }
    {
        self.failures = self.failures.saturating_add(1);
        Err(Failed)
    }

    /// Hands on what is held. At `Ok` the sink below has taken all that was given. After a call that failed it fails too.
    pub fn finish(&mut self) -> Result<(), Failed>
        ensures { Finishes self.old self.new result }
    {
        if self.failures > 0 {
            return self.fail_again();
        }
        if self.held.is_empty() {
            return Ok(());
        }
        self.hand_on()
    }

    /// The sink below, with what it took: a front of what was given, and no less than it had taken when it was handed in.
    pub fn into_inner(self) -> S
        ensures inner { result ≡ inner_of self }
        ensures between { IsBetween (S.taken (start_of self)) (S.taken result) (given_to self) }
        ensures counts { S.faults (start_of self) ≤ S.faults result }
        ensures cause { Rose (S.faults (start_of self)) (gathering_faults self)
            → Rose (S.faults (start_of self)) (S.faults result) }
    {
        self.inner
    }
}

impl<S: Sink> Sink for GatheringSink<S> {
    ghost use Rattle.mos_bytes.specs.Gathering.{Finishes, Tells, inner_of, held_of, failures_of, given_to, gathering_faults, gathering_lasting};

    ghost taken = { given_to };

    ghost faults = { gathering_faults };

    // Which sink was handed in, and what no call of that one changes.
    ghost Lasting = { S × S.Lasting };

    ghost lasting = { gathering_lasting };

    /// Holds the piece. Where it has no room, what is held is handed on before. It takes no memory.
    #[inline(always)]
    fn write_all(&mut self, bytes: &[u8]) -> Result<(), Failed>
        ensures bytes { WriteAdds (given_to self.old) (given_to self.new) result bytes.now }
        ensures told { Tells self.old self.new result }

        // The sink below isn't called for a small piece that has room.
        ensures gathers { failures_of self.old ≡ 0 → length bytes.now < 65536
            → length (held_of self.old) + length bytes.now ≤ 65536
            → IsOk result × (inner_of self.new ≡ inner_of self.old) × (held_of self.new ≡ held_of self.old ++ bytes.now) }
    {
        if self.failures > 0 {
            return self.fail_again();
        }
        self.make_room(bytes.len())?;
        if bytes.len() >= BUFFER {
            return self.pass(bytes);
        }
        self.hold(bytes);
        Ok(())
    }

    /// Hands on what is held, as `finish` does.
    fn flush(&mut self) -> Result<(), Failed>
        ensures { Finishes self.old self.new result }
    {
        self.finish()
    }
}
