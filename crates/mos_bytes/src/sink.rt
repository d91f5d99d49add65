//! Where bytes go.

ghost use Rattle.std.specs.Prelude.{◌≡◌, ⊤, ℕ, List, OnOk};
ghost use Rattle.std.specs.declared.option.Option.{Option};
ghost use Rattle.std.specs.declared.option.Option.TheVariants.{None};
ghost use Rattle.std.specs.Io.KnownBytes.{Keeps};
ghost use Rattle.mos_bytes.specs.Causes.{HasCause};
ghost use Rattle.mos_bytes.specs.Writes.{GivesPieces, WriteAdds};

use crate::Failed;

/// A sink of bytes. What one has to give is `taken`, `faults`, `lasting` and `write_all`. The rest may stay as it is here, for
/// a sink that holds nothing back and has nothing more to say.
pub trait Sink {
    // The bytes that were taken so far, where the sink tells them.
    ghost taken: { Self → Option (List ℕ) };

    // How often the sink has failed. It never falls, and a call that answers `Ok` leaves it.
    ghost faults: { Self → ℕ };

    // How many pieces were given to `write_all` so far, where the sink counts them.
    ghost pieces: { Self → Option ℕ } = { λ _. None };

    // What no call changes, as which object a sink borrows: the unit where there is nothing to say.
    ghost Lasting: { Type 0 } = { ⊤ };

    ghost lasting: { Self → Lasting };

    /// Takes all of `bytes`, or at `Failed` a front of them.
    fn write_all(&mut self, bytes: &[u8]) -> Result<(), Failed>
        ensures bytes { WriteAdds (taken self.old) (taken self.new) result bytes.now }
        ensures one_piece { GivesPieces 1 (pieces self.old) (pieces self.new) }
        ensures cause { HasCause (faults self.old) (faults self.new) result }
        ensures sound { OnOk result (faults self.new ≡ faults self.old) }
        ensures lasts { lasting self.new ≡ lasting self.old };

    /// Hands on what the sink holds back, where it gathers. What counts as taken is as it was.
    fn flush(&mut self) -> Result<(), Failed>
        ensures bytes { Keeps (taken self.old) (taken self.new) }
        ensures no_piece { pieces self.new ≡ pieces self.old }
        ensures cause { HasCause (faults self.old) (faults self.new) result }
        ensures sound { OnOk result (faults self.new ≡ faults self.old) }
        ensures lasts { lasting self.new ≡ lasting self.old }
    {
        Ok(())
    }
}
