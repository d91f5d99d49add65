//! Copies between slices.

ghost use Rattle.std.specs.Prelude.{◌≡◌, ◌+◌, ◌≤◌, ◌++◌, length, take, drop, min};

/// Copies as many bytes as stand in `from` and have room in `to`, and answers how many.
#[inline]
pub fn copy_front(from: &[u8], to: &mut [u8]) -> usize
    ensures count { result ≡ min (length from.now) (length to.old) }
    ensures copied { to.new ≡ take result from.now ++ drop result to.old }
{
    let count = from.len().min(to.len());
    to[..count].copy_from_slice(&from[..count]);
    count
}

/// Writes the bytes over those behind this place, and answers the place behind them.
#[inline]
pub fn put_behind(room: &mut [u8], place: usize, bytes: &[u8]) -> usize
    requires { place + length bytes.now ≤ length room.old }
    ensures place { result ≡ place + length bytes.now }
    ensures room { length room.new ≡ length room.old }
    ensures put { take result room.new ≡ take place room.old ++ bytes.now }
{
    let end = place + bytes.len();
    room[place..end].copy_from_slice(bytes);
    end
}
