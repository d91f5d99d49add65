//! Laws of keys and lanes, in the words of the subject. Each is the contract of a function that does nothing.

ghost use Rattle.flow_table.specs.Laws.{HasOneKey};
ghost use Rattle.ip6_views.specs.Laws.{HasOneLane};

use flow_table::either_order_has_one_key;

/// Both directions of a connection go to the same lane, over IPv4 and IPv6: where one segment's sender is the other's
/// receiver and the other way round.
pub fn both_directions_have_one_lane()
    ensures { HasOneLane }
{
    either_order_has_one_key();
}
