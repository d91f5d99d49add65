//! Laws of a forward run that writes while it reads. These functions do nothing: whoever leads such a run calls them
//! for what they say.
//!
//! Packets are numbered in the order of the capture, and each goes to the lane that `lane` tells. They leave in that order,
//! each by the next answer of its lane; `given` has the answers of each lane by which packets have left so far. What a lane
//! answers is known for sure only once its thread has ended. Till then a run keeps `HaveLeft`: for whatever answers turn out
//! to be the right ones, if those given are theirs, what was written is right.

ghost use Rattle.std.specs.Prelude.{◌≡◌, ◌+◌, ◌<◌, ◌≤◌, ◌≢◌, ◌==◌, ◌++◌, [], ◌∷◌, ℕ, Option, List, length, map, take, filter, get_or};
ghost use Rattle.std.specs.List.{flat_map};
ghost use Rattle.std.specs.Io.KnownBytes.{Appends};
ghost use mathlib.Core.List.{IsPrefix};
ghost use Rattle.mos_bytes.specs.Writes.{AppendsFront};
ghost use Rattle.lane_rings.specs.declared.items.Answer.{Answer};
ghost use Rattle.lane_composition.specs.Share.{share};
ghost use Rattle.lane_composition.specs.Forwarded.{bytes_out, forwarded};
ghost use Rattle.lane_composition.specs.Forward.{HaveLeft, HasLeft};

/// Before a packet has left, nothing was written.
pub fn nothing_has_left()
    ensures none { (lane : ℕ → ℕ) (given : ℕ → List Answer) (out : Option (List ℕ))
        → ((l : ℕ) → given l ≡ []) → HaveLeft lane 0 given out out }
{}

/// The next packet leaves, by an answer of its lane: its record is written whole, or cut off where its write fails.
pub fn the_next_leaves()
    ensures whole { (lane : ℕ → ℕ) (n : ℕ) (given after : ℕ → List Answer) (a : Answer)
        (old mid new : Option (List ℕ)) → HaveLeft lane n given old mid
        → after (lane n) ≡ given (lane n) ++ a ∷ [] → ((l : ℕ) → l ≢ lane n → after l ≡ given l)
        → Appends mid new (bytes_out a) → HaveLeft lane (n + 1) after old new }
    ensures cut { (lane : ℕ → ℕ) (n m : ℕ) (given after : ℕ → List Answer) (a : Answer)
        (old mid new : Option (List ℕ)) → n < m → HaveLeft lane n given old mid
        → after (lane n) ≡ given (lane n) ++ a ∷ [] → ((l : ℕ) → l ≢ lane n → after l ≡ given l)
        → AppendsFront mid new (bytes_out a) → HasLeft lane m after old new }
    ensures some { (lane : ℕ → ℕ) (n m : ℕ) (given : ℕ → List Answer) (old new : Option (List ℕ))
        → n ≤ m → HaveLeft lane n given old new → HasLeft lane m given old new }
{}

/// Only the lanes of the packets that were sent count: so a run may learn the lane of each packet as it reads it.
pub fn later_lanes_change_nothing()
    ensures share { (lane other : ℕ → ℕ) (n : ℕ) → ((i : ℕ) → i < n → other i ≡ lane i) → (l : ℕ)
        → share other l n ≡ share lane l n }
    ensures left { (lane other : ℕ → ℕ) (n : ℕ) (given : ℕ → List Answer) (old new : Option (List ℕ))
        → ((i : ℕ) → i < n → other i ≡ lane i) → HaveLeft lane n given old new → HaveLeft other n given old new }
{}

/// However a run ends: where the answers by which packets have left are the first ones of each lane, and those are the right
/// answers of the lane's first packets in order, what was written is a front of what the packets leave, in their order and
/// each once; and all of it where all packets have left.
pub fn what_left_is_right()
    ensures front { (lane : ℕ → ℕ) (answer : ℕ → Answer) (n m : ℕ) (given : ℕ → List Answer)
        (old new : Option (List ℕ)) → n ≤ m
        → ((l : ℕ) → IsPrefix (given l) (map answer (share lane l m)))
        → HasLeft lane n given old new → AppendsFront old new (forwarded answer m) }
    ensures all { (lane : ℕ → ℕ) (answer : ℕ → Answer) (n : ℕ) (given : ℕ → List Answer)
        (old new : Option (List ℕ))
        → ((l : ℕ) → IsPrefix (given l) (map answer (share lane l n)))
        → HaveLeft lane n given old new → Appends old new (forwarded answer n) }
{}

/// The same by the list of all packets' answers in place of their numbers: where `of` tells the lane, a lane's answers
/// are those of the list that go to it, in order, and what the first n packets leave are their bytes, one after the
/// other.
pub fn numbers_are_places()
    ensures share { (of : Answer → ℕ) (l : ℕ) (answers : List Answer) (d : Answer) (n : ℕ)
        → n ≤ length answers
        → map (λ i. get_or answers i d) (share (λ i. of (get_or answers i d)) l n) ≡ filter (λ a. of a == l)
        (take n answers) }
    ensures bytes { (answers : List Answer) (d : Answer) (n : ℕ) → n ≤ length answers
        → forwarded (λ i. get_or answers i d) n ≡ flat_map bytes_out (take n answers) }
{}
