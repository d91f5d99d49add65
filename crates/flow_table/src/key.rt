//! The key of a connection.

ghost use Rattle.std.specs.Prelude.{◌≡◌};
ghost use Rattle.packet_views.specs.Packet.{head_of};
ghost use Rattle.flow_table.specs.Endpoint.{source_of, destination_of};
ghost use Rattle.flow_table.specs.Key.{key_between, key_of_head};

use crate::endpoint::Endpoint;
use packet_views::{Head, TcpView};
use std::marker::Model;

/// The two endpoints of a connection without an order, so that both directions have one key.
/// Contracts see it as the pair of the lower and the higher endpoint.
#[derive(Clone, Copy, Debug, PartialEq, Eq, Hash)]
pub struct Key {
    /// The lower endpoint.
    pub lo: Endpoint,
    /// The higher endpoint, or an equal one.
    pub hi: Endpoint,
}

impl Model for Key {
    ghost use Rattle.std.specs.Prelude.{◌≡◌, true};
    ghost use Rattle.std.specs.Ordering.{is_le};
    ghost use Rattle.flow_table.specs.Endpoint.{endpoint_cmp};
    ghost use Rattle.flow_table.specs.Key.{EndpointPair};

    ghost Value = { EndpointPair };

    ghost view = { λ key. (key.lo, key.hi) };

    ghost invariant = { λ key. is_le (endpoint_cmp key.lo key.hi) ≡ true };

    ghost inverse = { λ ends. record { lo = ends.0; hi = ends.1 } };
}

impl Key {
    ghost use Rattle.flow_table.specs.Key.{key_between};

    /// The key of two endpoints, in either order.
    #[tactic(auto, unfolding(crate::specs::Key::key_between))]
    pub fn between(a: Endpoint, b: Endpoint) -> Key
        ensures ends { result ≡ key_between a b }
        ensures either { result ≡ key_between b a }
    {
        if a <= b {
            Key { lo: a, hi: b }
        } else {
            Key { lo: b, hi: a }
        }
    }
}

/// The key of the connection that a segment belongs to, whichever direction it goes.
pub fn key_of(segment: &TcpView<'_>) -> Key
    ensures key { result ≡ key_of_head (head_of segment.now) }
    ensures either { result ≡ key_between (destination_of (head_of segment.now)) (source_of (head_of segment.now)) }
{
    key_of_head(&segment.head())
}

/// The same by the segment's header fields, for a caller that has read them.
#[tactic(auto, unfolding(crate::specs::Key::key_of_head))]
pub fn key_of_head(head: &Head) -> Key
    ensures key { result ≡ key_of_head head.now }
    ensures either { result ≡ key_between (destination_of head.now) (source_of head.now) }
{
    Key::between(Endpoint::source_of(head), Endpoint::destination_of(head))
}
