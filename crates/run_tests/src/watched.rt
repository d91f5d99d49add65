//! A source and a sink that count what goes through them.

use mos_bytes::{Failed, MemSink, Sink, Source};
use std::sync::atomic::{AtomicU64, Ordering};

// What a source has given and a sink has got.
#[derive(Drop)]
pub struct Flow {
    // Calls that were made, and bytes that came.
    reads: AtomicU64,
    read: AtomicU64,
    writes: AtomicU64,
    written: AtomicU64,
    // The most that was read and not written, at a read: bytes, and packets. A packet is read by two calls and written by two.
    most_bytes: AtomicU64,
    most_packets: AtomicU64,
}

impl Flow {
    pub fn new() -> Flow {
        Flow {
            reads: AtomicU64::new(0),
            read: AtomicU64::new(0),
            writes: AtomicU64::new(0),
            written: AtomicU64::new(0),
            most_bytes: AtomicU64::new(0),
            most_packets: AtomicU64::new(0),
        }
    }

    pub fn writes(&self) -> u64 {
        self.writes.load(Ordering::SeqCst)
    }

    pub fn most_bytes(&self) -> u64 {
        self.most_bytes.load(Ordering::SeqCst)
    }

    pub fn most_packets(&self) -> u64 {
        self.most_packets.load(Ordering::SeqCst)
    }

    fn note_read(&self) {
        let read = self.read.load(Ordering::SeqCst);
        let written = self.written.load(Ordering::SeqCst);
        self.most_bytes
            .fetch_max(read.saturating_sub(written), Ordering::SeqCst);
        let reads = self.reads.fetch_add(1, Ordering::SeqCst);
        let writes = self.writes();
        self.most_packets
            .fetch_max((reads / 2).saturating_sub(writes / 2), Ordering::SeqCst);
    }
}

// A source that counts what it gives. It has at hand what the one below has, or nothing.
#[derive(Drop)]
pub struct WatchedSource<'a, S> {
    pub below: S,
    pub is_at_hand: bool,
    pub flow: &'a Flow,
}

impl<'a, S: Source> Source for WatchedSource<'a, S> {
    ghost use Rattle.std.specs.declared.option.Option.TheVariants.{None};

    ghost left = { λ s. None };

    ghost faults = { λ s. S.faults s.below };

    ghost lasting = { λ s. tt };

    ghost ended = { λ s. S.ended s.below };

    fn read(&mut self, buf: &mut [u8]) -> Result<usize, Failed> {
        self.flow.note_read();
        let count = self.below.read(buf)?;
        self.flow.read.fetch_add(count as u64, Ordering::SeqCst);
        Ok(count)
    }

    fn at_hand(&self) -> &[u8] {
        if self.is_at_hand {
            return self.below.at_hand();
        }
        &[]
    }

    fn count_at_hand(&self) -> usize {
        if self.is_at_hand {
            return self.below.count_at_hand();
        }
        0
    }
}

// A sink that counts what it gets.
#[derive(Drop)]
pub struct WatchedSink<'a> {
    pub below: MemSink,
    pub flow: &'a Flow,
}

impl<'a> Sink for WatchedSink<'a> {
    ghost use Rattle.std.specs.declared.option.Option.TheVariants.{None};

    ghost taken = { λ s. None };

    ghost faults = { λ s. s.below.faults };

    ghost lasting = { λ s. tt };

    fn write_all(&mut self, bytes: &[u8]) -> Result<(), Failed> {
        self.flow.writes.fetch_add(1, Ordering::SeqCst);
        self.below.write_all(bytes)?;
        self.flow
            .written
            .fetch_add(bytes.len() as u64, Ordering::SeqCst);
        Ok(())
    }

    fn flush(&mut self) -> Result<(), Failed> {
        self.below.flush()
    }
}
