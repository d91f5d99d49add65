//! A source and a sink that have no more than the calls that each of them needs.

use mos_bytes::{Failed, Sink, Source, fill};

// Gives so many zeros.
#[derive(Drop)]
struct Zeros(usize);

impl Source for Zeros {
    ghost use Rattle.std.specs.declared.option.Option.TheVariants.{None};

    ghost left = { λ _. None };

    ghost faults = { λ _. 0 };

    ghost lasting = { λ _. tt };

    fn read(&mut self, buf: &mut [u8]) -> Result<usize, Failed> {
        let count = self.0.min(buf.len());
        buf[..count].fill(0);
        self.0 -= count;
        Ok(count)
    }
}

// Has room for so many bytes, and keeps none.
#[derive(Drop)]
struct Nowhere(usize);

impl Sink for Nowhere {
    ghost use Rattle.std.specs.declared.option.Option.TheVariants.{None};

    ghost taken = { λ _. None };

    ghost faults = { λ _. 0 };

    ghost lasting = { λ _. tt };

    fn write_all(&mut self, bytes: &[u8]) -> Result<(), Failed> {
        self.0 = self.0.saturating_sub(bytes.len());
        Ok(())
    }
}

// Whether such a source has nothing at hand, lends nothing, and gives what it holds by reads.
fn gives(source: &mut Zeros, count: usize) -> bool {
    let mut buf = [1; 8];
    source.at_hand().is_empty()
        && source.count_at_hand() == 0
        && source.lend().is_empty()
        && !source.pass(0)
        && fill(source, &mut buf) == Ok(count)
}

#[test]
fn a_source_with_its_read_alone(rt: HostRuntime) {
    assert!(rt; gives(&mut Zeros(5), 5));
}

#[test]
fn a_sink_with_its_write_alone(rt: HostRuntime) {
    let mut sink = Nowhere(5);
    assert!(rt; sink.write_all(b"abc") == Ok(()) && sink.flush() == Ok(()) && sink.0 == 2);
}
