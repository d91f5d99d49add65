//! The lane of a captured frame.

ghost use Rattle.std.specs.Prelude.{◌≡◌, ◌<◌, ◌≤◌};
ghost use Rattle.ip6_views.specs.Sight.{sight_of, lane_of_sight};

use crate::plain::plain_ends;
use crate::seeing::sight_of_any;
use crate::sight::Sight;
use flow_table::lane_between;

/// The lane of a captured frame among so many lanes, at least one, from 0: that of its key. What has no key goes to lane 0.
/// Of a plain frame no more is read than its tests and its endpoints.
#[inline(always)]
pub fn lane_of_frame(bytes: &[u8], lanes: usize) -> usize
    requires some { 1 ≤ lanes }
    ensures lane { result ≡ lane_of_sight (sight_of bytes.now) lanes }
    ensures within { result < lanes }
{
    match plain_ends(bytes) {
        Some(ends) => lane_between(&ends.from, &ends.to, lanes),
        None => lane_of_any(bytes, lanes),
    }
}

// The same of any frame, by all that is seen of it.
#[inline(never)]
fn lane_of_any(bytes: &[u8], lanes: usize) -> usize
    requires some { 1 ≤ lanes }
    ensures lane { result ≡ lane_of_sight (sight_of bytes.now) lanes }
    ensures within { result < lanes }
{
    match sight_of_any(bytes) {
        Sight::Tcp(segment) => lane_between(&segment.from, &segment.to, lanes),
        Sight::Other(_) => 0,
    }
}
