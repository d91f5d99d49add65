//! What is seen of a captured frame, over IPv4 or IPv6: a TCP segment with its header fields, both endpoints, window scale and
//! payload, or the class of what the frame is instead. No call copies the payload or takes memory.
//!
//! The IPv6 header is read here, with at most eight extension headers; the TCP header behind it, and every other frame, by
//! `packet_views`. A frame over IPv4 in its plainest form is read at fixed places (`src/plain.rt`).
//! Contract: `sight_of` gives the sight of the definition, and `lane_of_frame` the lane of that sight. Both are the same for a
//! lane and for the thread that sends packets to lanes.
//! Begin with `specs/Sight.antt`, `specs/Packet.antt` and `specs/Chain.antt`, then `src/seeing.rt` and `src/chain.rt`.
//! Tests: `packet_tests` (ip6).
#![tactic(auto)]

mod chain;
mod fields;
mod header;
mod key;
mod lane;
mod laws;
mod plain;
mod seeing;
mod segment;
mod sight;

pub use key::key_between;
pub use lane::lane_of_frame;
pub use laws::both_directions_have_one_lane;
pub use seeing::sight_of;
pub use sight::{Sight, SightTcp};
