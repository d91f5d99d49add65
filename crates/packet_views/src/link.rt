//! The link header of a captured Ethernet frame: what it carries, and where that begins.

ghost use Rattle.std.specs.Prelude.{◌≡◌, IfSome, IsNone, true, false};
ghost use Rattle.packet_views.specs.Frame.{carries};
ghost use Rattle.packet_views.specs.Layout.{IsIpStart};

use crate::fields::u16_at;

/// The type of a frame with an 802.1Q tag.
const TYPE_TAGGED: u16 = 0x8100;

/// Where the packet begins that a frame carries, where its type is this one (IEEE 802.3), behind one tag if there is one
/// (IEEE 802.1Q). There is none where the link header isn't whole, or has another type.
#[inline(always)]
#[tactic(auto, unfolding(crate::specs::Frame::carries))]
pub fn packet_start(frame: &[u8], ether_type: u16) -> Option<usize>
    ensures start { IfSome result (IsIpStart frame.now) }
    ensures carried { IfSome result (λ _. carries ether_type frame.now ≡ true) }
    ensures lacking { IsNone result → carries ether_type frame.now ≡ false }
{
    if frame.len() < 14 {
        return None;
    }
    let start = if u16_at(frame, 12) != TYPE_TAGGED {
        14
    } else if frame.len() < 18 {
        return None;
    } else {
        18
    };
    if u16_at(frame, start - 2) == ether_type {
        Some(start)
    } else {
        None
    }
}
