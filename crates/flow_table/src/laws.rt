//! Laws of the lanes, in the words of the subject. Each is the contract of a function that does nothing.

ghost use Rattle.flow_table.specs.Laws.{HasOneKey, HasOneLane, IsWithoutKeyAtLane0};

/// Two endpoints have one key, whichever is named first.
#[tactic(auto, unfolding(crate::specs::Key::key_between))]
pub fn either_order_has_one_key()
    ensures { HasOneKey }
{}

/// Both directions of a connection go to the same lane, whichever payload they carry: where one segment's
/// source is the other's destination and the other way round.
pub fn both_directions_have_one_lane()
    ensures { HasOneLane }
{}

/// A packet that has no key goes to lane 0.
pub fn without_a_key_to_lane_0()
    ensures { IsWithoutKeyAtLane0 }
{}
