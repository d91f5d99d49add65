//! A source over any reader of std.

ghost use Rattle.std.specs.Prelude.{◌≡◌, ◌≢◌, ◌↔◌, [], ◌+◌, ◌-◌, ◌≤◌, length, take, min, IsTrue, IsOk, OnOk};
ghost use Rattle.std.specs.Bool.{OnTrue, OnFalse};
ghost use Rattle.std.specs.Io.KnownBytes.{Consumes, IsAtEnd, Keeps};
ghost use Rattle.mos_bytes.specs.Outside.{CountsFault};
ghost use Rattle.mos_bytes.specs.Reads.{BeginsWith, HasAtLeast, PassesOver, ReadGives};

use crate::{Failed, Source, copy_front};
use std::io::Read;

// One call of the system brings many small packets. Before a call a caller may have to finish what it has begun, so that a
// call for less costs more than its own time.
const BUFFER: usize = 524_288;

/// A source over a reader. It tells what is left where the reader does: over files and standard streams it tells
/// nothing. Its count of faults begins at 0. Each error of the reader is a fault, and so is a count longer than the buffer.
///
/// It reads ahead into a buffer of its own, so that many short reads cost one call of the reader.
#[derive(Drop)]
pub struct ReadSource<R> {
    inner: R,
    buffer: [u8; BUFFER],
    start: usize,
    end: usize,
    faults: u64,
    ghost ordered: { start ≤ end },
    ghost within: { end ≤ 524288 },
}

// One call of the reader. An error is a fault, and so is a count longer than the buffer.
fn read_once<R: Read>(inner: &mut R, buf: &mut [u8], faults: &mut u64) -> Result<usize, Failed>
    ensures reads { ReadGives (R.remaining inner.old) (R.remaining inner.new) result buf.new }
    ensures counted { CountsFault faults.old faults.new result }
{
    match inner.read(buf) {
        Ok(count) if count <= buf.len() => Ok(count),
        _ => {
            *faults = faults.saturating_add(1);
            Err(Failed)
        }
    }
}

impl<R: Read> ReadSource<R> {
    ghost use Rattle.mos_bytes.specs.Adapters.{ahead_of, source_faults, source_left};

    /// A source over this reader, from which nothing was read yet. It takes no memory.
    pub fn new(inner: R) -> Self
        ensures left { source_left R.remaining result ≡ R.remaining inner }
        ensures faults { source_faults result ≡ 0 }
    {
        ReadSource {
            inner,
            buffer: [0; BUFFER],
            start: 0,
            end: 0,
            faults: 0,
        }
    }

    // Reads into the buffer, of which nothing is left.
    fn refill(&mut self) -> Result<(), Failed>
        requires { self.old.start ≡ self.old.end }
        ensures bytes { Keeps (source_left R.remaining self.old) (source_left R.remaining self.new) }
        ensures end { OnOk result (length (ahead_of self.new) ≡ 0 → IsAtEnd (source_left R.remaining self.new)) }
        ensures counted { CountsFault self.old.faults self.new.faults result }
    {
        let count = read_once(&mut self.inner, &mut self.buffer, &mut self.faults)?;
        self.start = 0;
        self.end = count;
        Ok(())
    }

    // Copies from the buffer, and answers how many bytes.
    fn read_ahead(&mut self, buf: &mut [u8]) -> usize
        ensures count { result ≡ min (length (ahead_of self.old)) (length buf.old) }
        ensures bound { result ≤ length buf.new }
        ensures bytes { Consumes (source_left R.remaining self.old) (source_left R.remaining self.new)
            (take result buf.new) }
        ensures rest { length (ahead_of self.old) ≡ result + length (ahead_of self.new) }
        ensures inner { self.new.inner ≡ self.old.inner }
        ensures faults { self.new.faults ≡ self.old.faults }
    {
        let count = copy_front(&self.buffer[self.start..self.end], buf);
        self.start += count;
        count
    }
}

impl<R: Read> Source for ReadSource<R> {
    ghost use Rattle.mos_bytes.specs.Adapters.{ahead_of, reader_of, source_faults, source_left};

    ghost left = { source_left R.remaining };

    ghost faults = { source_faults };

    ghost lasting = { λ _. tt };

    /// Gives what was read ahead, or asks the reader once. An error counts one fault more, any other answer none.
    fn read(&mut self, buf: &mut [u8]) -> Result<usize, Failed>
        ensures reads { ReadGives (source_left R.remaining self.old) (source_left R.remaining self.new) result buf.new }
        ensures counted { CountsFault (source_faults self.old) (source_faults self.new) result }

        // The reader isn't called where something was read ahead.
        ensures quiet { ahead_of self.old ≢ [] → IsOk result × (reader_of self.new ≡ reader_of self.old) }
    {
        if self.start == self.end {
            // A long read needs no buffer between.
            if buf.len() >= BUFFER {
                return read_once(&mut self.inner, buf, &mut self.faults);
            }
            self.refill()?;
        }
        Ok(self.read_ahead(buf))
    }

    /// What was read ahead.
    fn at_hand(&self) -> &[u8]
        ensures front { BeginsWith (source_left R.remaining self.now) result.now }
        ensures ahead { result.now ≡ ahead_of self.now }
    {
        &self.buffer[self.start..self.end]
    }

    /// How many bytes were read ahead.
    fn count_at_hand(&self) -> usize
        ensures least { HasAtLeast (source_left R.remaining self.now) result }
        ensures ahead { result ≡ length (ahead_of self.now) }
    {
        self.end - self.start
    }

    /// What was read ahead.
    fn lend(&self) -> &[u8]
        ensures front { BeginsWith (source_left R.remaining self.now) result.now }
        ensures ahead { result.now ≡ ahead_of self.now }
    {
        &self.buffer[self.start..self.end]
    }

    /// Passes over bytes that were read ahead, where there are so many.
    fn pass(&mut self, count: usize) -> bool
        ensures bytes { OnTrue result
            (PassesOver (source_left R.remaining self.old) (source_left R.remaining self.new) count) }
        ensures stays { OnFalse result (self.new ≡ self.old) }
        ensures faults { source_faults self.new ≡ source_faults self.old }
        ensures answers { IsTrue result ↔ (count ≤ length (ahead_of self.old)) }
    {
        if count > self.end - self.start {
            return false;
        }
        self.start += count;
        true
    }
}
