//! What a receiver offers, and how wide the offer makes its receive window.

ghost use Rattle.std.specs.Prelude.{◌≡◌, ◌≤◌};
ghost use Rattle.reassembly.specs.Receiver.{wide_with};
ghost use Rattle.reassembly.specs.Offer.{greatest_offer};

/// How many positions from `next` on lie in the receive window (RFC 9293, section 3.3.1): the `rbuf` of the receive
/// buffer, and once an offer was made no more than it leaves.
pub fn wide(next: u64, offer: Option<u64>, rbuf: u32) -> u32
    ensures value { result ≡ wide_with next offer rbuf }
    ensures bound { result ≤ rbuf }
{
    match offer {
        Some(offer) => u64::from(rbuf).min(offer.saturating_sub(next)) as u32,
        None => rbuf,
    }
}

/// The greatest offer after one of `size` positions from `position` on, the one that is acknowledged, which may lie
/// below 0: a window that shrinks takes no position back (RFC 9293, section 3.8.6).
pub fn greatest_offer(offer: Option<u64>, position: i64, size: u32) -> u64
    ensures { result ≡ greatest_offer offer position size }
{
    let size = u64::from(size);
    let edge = if position < 0 {
        size.saturating_sub(position.unsigned_abs())
    } else {
        position as u64 + size
    };
    offer.unwrap_or(0).max(edge)
}
