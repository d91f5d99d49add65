//! A sink over any writer of std.

ghost use Rattle.std.specs.Prelude.{◌≡◌, IsOk};
ghost use Rattle.std.specs.Bool.{OnTrue, OnFalse};
ghost use Rattle.std.specs.Io.KnownBytes.{Appends, Keeps};
ghost use Rattle.mos_bytes.specs.Causes.{HasCause};
ghost use Rattle.mos_bytes.specs.Outside.{CountsFault};
ghost use Rattle.mos_bytes.specs.Writes.{AppendsFront, WriteAdds};

use crate::{Failed, Sink};
use std::io::Write;

/// A sink over a writer. It tells what was taken where the writer does: over files and standard streams it tells
/// nothing. Its count of faults begins at 0, and each error of the writer is a fault.
#[derive(Drop)]
pub struct WriteSink<W> {
    inner: W,
    faults: u64,
}

impl<W: Write> WriteSink<W> {
    ghost use Rattle.mos_bytes.specs.Adapters.{sink_faults, sink_taken};

    /// A sink over this writer. It takes no memory.
    pub fn new(inner: W) -> Self
        ensures taken { sink_taken W.contents result ≡ W.contents inner }
        ensures faults { sink_faults result ≡ 0 }
    {
        WriteSink { inner, faults: 0 }
    }
}

// Writes all of the bytes, and answers whether the writer took them.
fn write_pieces<W: Write>(inner: &mut W, bytes: &[u8]) -> bool
    ensures all { OnTrue result (Appends (W.contents inner.old) (W.contents inner.new) bytes.now) }
    ensures part { OnFalse result (AppendsFront (W.contents inner.old) (W.contents inner.new) bytes.now) }
{
    let mut done = 0;
    while done < bytes.len() {
        match inner.write(&bytes[done..]) {
            Ok(count) if 0 < count && count <= bytes.len() - done => done += count,
            _ => return false,
        }
    }
    true
}

impl<W: Write> Sink for WriteSink<W> {
    ghost use Rattle.mos_bytes.specs.Adapters.{sink_faults, sink_taken};

    ghost taken = { sink_taken W.contents };

    ghost faults = { sink_faults };

    ghost lasting = { λ _. tt };

    /// Hands the bytes to the writer and flushes it. A writer that takes nothing of a piece that isn't empty is a fault,
    /// and so is a flush that fails. A call that fails counts one fault more, any other none.
    fn write_all(&mut self, bytes: &[u8]) -> Result<(), Failed>
        ensures bytes { WriteAdds (sink_taken W.contents self.old) (sink_taken W.contents self.new) result bytes.now }
        ensures counted { CountsFault (sink_faults self.old) (sink_faults self.new) result }
    {
        if write_pieces(&mut self.inner, bytes) && self.inner.flush().is_ok() {
            return Ok(());
        }
        self.faults = self.faults.saturating_add(1);
        Err(Failed)
    }

    /// Each write has flushed the writer, so nothing is held back, and the writer isn't called.
    fn flush(&mut self) -> Result<(), Failed>
        ensures bytes { Keeps (sink_taken W.contents self.old) (sink_taken W.contents self.new) }
        ensures cause { HasCause (sink_faults self.old) (sink_faults self.new) result }
        ensures idle { IsOk result × (self.new ≡ self.old) }
    {
        Ok(())
    }
}
