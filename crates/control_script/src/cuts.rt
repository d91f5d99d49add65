//! A text cut at its first byte of a kind.

ghost use Rattle.std.specs.Prelude.{◌≡◌, ◌≤◌, length, MatchOption, None, Some};
ghost use Rattle.control_script.specs.Cuts.{position_of, cut_at};

/// What stands before the first byte that is this one, and what stands behind it.
pub(crate) fn cut_at(mark: u8, text: &[u8]) -> Option<(&[u8], &[u8])>
    ensures { MatchOption result (cut_at mark text.now ≡ None)
        (λ c. cut_at mark text.now ≡ Some (c.0.now, c.1.now)) }
{
    let place = place_of(mark, text);
    if place < text.len() {
        Some((&text[..place], &text[place + 1..]))
    } else {
        None
    }
}

/// How many bytes stand before the first that is this one.
pub(crate) fn place_of(mark: u8, text: &[u8]) -> usize
    ensures value { result ≡ position_of mark text.now }
    ensures within { result ≤ length text.now }
{
    text.iter().take_while(|b| **b != mark).count()
}
