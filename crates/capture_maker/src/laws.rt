//! Laws of the generated capture. Each is the contract of a function that does nothing.

ghost use Rattle.std.specs.Prelude.{◌≡◌, ◌+◌, ◌*◌, ◌≤◌, ℕ, length};
ghost use Rattle.capture_maker.specs.Laws.{IsTaken};
ghost use Rattle.capture_maker.specs.Made.{made};

/// The capture of n connections has 24 + 1,064 n bytes.
pub fn capture_has_its_size()
    ensures { (n : ℕ) → length (made n) ≡ 24 + 1064 * n }
{}

/// The reader of captures takes the capture whole: 10 n packets, the frames of the table in order, and no tail.
pub fn reader_takes_all_packets()
    ensures { (n : ℕ) → n ≤ 100000 → IsTaken n }
{}
