//! Where bytes come from.

ghost use Rattle.std.specs.Prelude.{◌≡◌, ◌+◌, ◌<◌, ◌≤◌, ⊤, ℕ, List, length, take, IfOk};
ghost use Rattle.std.specs.Bool.{OnTrue, OnFalse};
ghost use Rattle.std.specs.declared.option.Option.{Option};
ghost use Rattle.std.specs.Io.{ReadsAtMost};
ghost use Rattle.std.specs.Io.KnownBytes.{ReadConsumes};
ghost use Rattle.mos_bytes.specs.Causes.{HasCause};
ghost use Rattle.mos_bytes.specs.Reads.{BeginsWith, FillConsumes, HasAtLeast, PassesOver};

use crate::Failed;

/// A source of bytes. What one has to give is `left`, `faults`, `lasting` and `read`. The rest may stay as it is here, for a
/// source that has nothing at hand and nothing more to say.
pub trait Source {
    // The bytes that are left, where the source tells them.
    ghost left: { Self → Option (List ℕ) };

    // How often the source has failed. It never falls.
    ghost faults: { Self → ℕ };

    // What no call changes, as which object a source borrows: the unit where there is nothing to say.
    ghost Lasting: { Type 0 } = { ⊤ };

    ghost lasting: { Self → Lasting };

    // The source said that nothing more comes, and no refusal waits behind what it gave: the unit where there is nothing to say.
    // A source that turns another form into this one has it where the source below has ended and all of that form was accepted.
    ghost ended: { Self → Type 0 } = { λ _. ⊤ };

    /// Puts some of the bytes that are left into the front of `buf`, and answers how many.
    /// It answers 0 only where none is left or `buf` is empty. A call that fails consumes nothing.
    fn read(&mut self, buf: &mut [u8]) -> Result<usize, Failed>
        ensures bound { ReadsAtMost result buf.new }
        ensures bytes { ReadConsumes (left self.old) (left self.new) result buf.new }
        ensures ended { IfOk result (λ count. count ≡ 0 → 0 < length buf.new → ended self.new) }
        ensures cause { HasCause (faults self.old) (faults self.new) result }
        ensures lasts { lasting self.new ≡ lasting self.old };

    /// The bytes at hand: the next reads give these first, and nothing outside is asked until all of them were given.
    /// There may be fewer than the source could tell of, and none is always an answer.
    fn at_hand(&self) -> &[u8]
        ensures front { BeginsWith (left self.now) result.now }
    {
        &[]
    }

    /// How many bytes are at hand: those that `at_hand` shows, and more behind them where one slice can't show all.
    fn count_at_hand(&self) -> usize
        ensures least { HasAtLeast (left self.now) result }
    {
        0
    }

    /// Bytes at hand that may be used where they stand, and then be passed over in place of a read. None is always an answer.
    fn lend(&self) -> &[u8]
        ensures front { BeginsWith (left self.now) result.now }
    {
        &[]
    }

    /// Passes over the first `count` bytes, as if a read had given them, where it lends so many. It answers whether it did;
    /// `false` is always an answer, and then nothing was passed over.
    fn pass(&mut self, count: usize) -> bool
        ensures bytes { OnTrue result (PassesOver (left self.old) (left self.new) count) }
        ensures stays { OnFalse result (left self.new ≡ left self.old) }
        ensures faults { faults self.new ≡ faults self.old }
        ensures lasts { lasting self.new ≡ lasting self.old }
    {
        let _ = count;
        false
    }
}

/// Reads until `buf` is full or the source ends, and answers how many bytes stand in the front of `buf`:
/// all of them, or fewer where none is left. At `Failed` some bytes may have been consumed, but not all that `buf` has room for.
pub fn fill<S: Source>(source: &mut S, buf: &mut [u8]) -> Result<usize, Failed>
    ensures bound { ReadsAtMost result buf.new }
    ensures bytes { FillConsumes (S.left source.old) (S.left source.new) result buf.new }
    ensures ended { IfOk result (λ count. count < length buf.new → S.ended source.new) }
    ensures cause { HasCause (S.faults source.old) (S.faults source.new) result }
    ensures lasts { S.lasting source.new ≡ S.lasting source.old }
{
    let mut filled = 0;
    while filled < buf.len() {
        let count = source.read(&mut buf[filled..])?;
        if count == 0 {
            break;
        }
        filled += count;
    }
    Ok(filled)
}
