//! The source over a file of either form.

ghost use Rattle.std.specs.Prelude.{◌≡◌, ◌+◌, ◌<◌, ◌≤◌, ◌↔◌, ℕ, List, length, option_map, IsSome, IfOk, OnOk, OnErr};
ghost use Rattle.std.specs.Bool.{OnTrue, OnFalse};
ghost use Rattle.std.proofs.Props.{props};
ghost use Rattle.mos_bytes.specs.Causes.{HasCause};
ghost use Rattle.mos_bytes.specs.Reads.{BeginsWith, HasAtLeast, PassesOver, ReadGives};
ghost use Rattle.pcapng_source.specs.Reading.{IsFitting, IsSpent};
ghost use Rattle.pcapng_source.specs.Outlooks.{IsLinked, IsLinked-prop, MeetsOrFails};

use crate::NgFault;
use crate::reader::Reader;
use crate::turns::{give, look_ahead, read_on};
use mos_bytes::{Failed, Source};
use std::snapshot::Snapshot;

/// A source that gives a classic capture in place of a pcapng file, and any other file as it is. It takes no memory.
///
/// A block that is refused ends what it gives: a read that asks for more answers `Failed`, each time again, and `fault`
/// tells why. Its count of faults is that of the source below, and one for each read that met the refusal.
pub struct AnySource<'a, S: Source> {
    source: &'a mut S,
    reader: Reader,
    // The source as it was handed in.
    start: Snapshot<S>,
    ghost fits: { IsFitting reader },
    ghost spent: { IsSpent reader } by { Prim.hlevel props },
    ghost counts: { S.faults start.value ≤ S.faults source.now },
    ghost linked: { IsLinked (S.left start.value) (S.left source.now) reader } by { IsLinked-prop
        (S.left start.value) (S.left source.now) reader },
}

impl<'a, S: Source> Drop for AnySource<'a, S> {
    ghost use Rattle.pcapng_source.specs.Sources.{any_source};

    // The source below stays as it is.
    fn drop(self)
        ensures below { self.exit.0.now ≡ any_source self.entry }
    {
        let AnySource {
            source: _,
            reader: _,
            start: _,
        } = self;
    }
}

impl<'a, S: Source> AnySource<'a, S> {
    ghost use Rattle.pcapng_source.specs.Blocks.{any};
    ghost use Rattle.pcapng_source.specs.Sources.{AnyReads, Stands, any_faults, any_left, any_source, any_start, met_fault, refusals_met};

    /// A source over this one, from whose start the file is read. It takes no memory.
    pub fn new(source: &'a mut S) -> AnySource<'a, S>
        ensures left { any_left result ≡ option_map (λ file. (any file).bytes) (S.left source.old) }
        ensures faults { any_faults result ≡ S.faults source.old }
        ensures refusals { refusals_met result ≡ 0 }
        ensures start { any_start result ≡ source.old }
        ensures source { any_source result ≡ source.old }
        ensures fault { met_fault result ≡ None }
        ensures name { result.source.ghost_name ≡ source.entry.ghost_name }
    {
        let start = Snapshot::of(source);
        AnySource {
            source,
            reader: Reader::new(),
            start,
        }
    }

    /// Why the file is refused, where a read has met that: it is the refusal of the whole file.
    pub fn fault(&self) -> Option<NgFault>
        ensures met { result ≡ met_fault self.now }
        ensures exactly { IsSome result ↔ (0 < refusals_met self.now) }
        ensures stands { Stands self.now }
    {
        self.reader.fault()
    }

    // Gives what comes next, by steps of the reader where neither bytes that were made nor those of the file do.
    fn read_next(&mut self, buf: &mut [u8]) -> Result<usize, Failed>
        requires room { 0 < length buf.old }
        ensures { AnyReads self.old self.new result buf.new }
    {
        if self.reader.made() > 0 {
            return Ok(self.reader.give(buf));
        }
        let most = self.reader.direct(buf.len());
        if most > 0 {
            return give(self.source, &mut self.reader, &mut buf[..most]);
        }
        read_on(self.source, &mut self.reader, buf)
    }

    // Reads, and shows what it can of the bytes behind. It stands apart, so that the read of a classic capture stays short.
    #[inline(never)]
    fn read_on(&mut self, buf: &mut [u8]) -> Result<usize, Failed>
        requires room { 0 < length buf.old }
        ensures { AnyReads self.old self.new result buf.new }
    {
        let count = self.read_next(buf)?;
        if count > 0 && self.reader.made() == 0 && self.reader.direct(1) == 0 {
            look_ahead(self.source, &mut self.reader);
        }
        Ok(count)
    }
}

impl<'a, S: Source> Source for AnySource<'a, S> {
    ghost use Rattle.pcapng_source.specs.Sources.{any_ended, any_faults, any_lasting, any_left, faults_below, refusals_met};

    ghost left = { any_left };

    ghost faults = { any_faults };

    // Which source is read, as it was handed in, and what no call of it changes.
    ghost Lasting = { ℕ × S × S.Lasting };

    ghost lasting = { any_lasting };

    ghost ended = { any_ended };

    /// Gives bytes that were made or that stand in the file. At a refused block it fails, each time again.
    fn read(&mut self, buf: &mut [u8]) -> Result<usize, Failed>
        ensures reads { ReadGives (any_left self.old) (any_left self.new) result buf.new }
        ensures ended { IfOk result (λ count. count ≡ 0 → 0 < length buf.new → any_ended self.new) }
        ensures cause { HasCause (any_faults self.old) (any_faults self.new) result }

        // A read that answers `Ok` has met no refusal. One that fails has met it, once; or it met none, and the source below failed.
        ensures met { OnOk result (refusals_met self.new ≡ refusals_met self.old) }
        ensures failed { OnErr result (MeetsOrFails (refusals_met self.old) (refusals_met self.new)
            (faults_below self.old) (faults_below self.new)) }
        ensures lasts { any_lasting self.new ≡ any_lasting self.old }
    {
        if buf.is_empty() {
            return Ok(0);
        }
        // A classic capture takes no step of the reader.
        if self.reader.is_plain() {
            return self.source.read(buf);
        }
        self.read_on(buf)
    }

    /// The bytes that were made; of a file that is no pcapng file, those that the source below has at hand.
    fn at_hand(&self) -> &[u8]
        ensures front { BeginsWith (any_left self.now) result.now }
    {
        if self.reader.is_plain() {
            self.source.at_hand()
        } else {
            self.reader.made_bytes()
        }
    }

    /// How many bytes were made, and how many stand behind them as they are and are at hand below: where the head of a
    /// record was made, those of its data.
    fn count_at_hand(&self) -> usize
        ensures least { HasAtLeast (any_left self.now) result }
    {
        if self.reader.is_plain() {
            return self.source.count_at_hand();
        }
        let made = self.reader.made();
        made.saturating_add(self.reader.direct(self.source.count_at_hand()))
    }

    /// Of a file that is no pcapng file what the source below lends, of any other none.
    fn lend(&self) -> &[u8]
        ensures front { BeginsWith (any_left self.now) result.now }
    {
        if self.reader.is_plain() {
            self.source.lend()
        } else {
            &[]
        }
    }

    /// Passes over what the source below lends, where that does.
    fn pass(&mut self, count: usize) -> bool
        ensures bytes { OnTrue result (PassesOver (any_left self.old) (any_left self.new) count) }
        ensures stays { OnFalse result (any_left self.new ≡ any_left self.old) }
        ensures faults { any_faults self.new ≡ any_faults self.old }
        ensures lasts { any_lasting self.new ≡ any_lasting self.old }
    {
        if self.reader.is_plain() {
            return self.source.pass(count);
        }
        false
    }
}
