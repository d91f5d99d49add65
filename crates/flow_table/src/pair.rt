//! The key of a connection between two IPv4 endpoints, in 16 bytes.

ghost use Rattle.std.specs.Prelude.{◌≡◌, ◌+◌, ◌*◌, ◌<◌, ◌^◌, IfSome, is_some, true};
ghost use Rattle.flow_table.specs.Key.{EndpointPair, key_between};
ghost use Rattle.flow_table.specs.Pair.{is_ipv4, is_ipv4_pair, endpoint_of};

use crate::endpoint::Endpoint;
use crate::key::Key;
use std::hash::{Hash, Hasher};
use std::marker::Model;

/// How many ports there are: an endpoint's number is its address times this, and its port.
const PORTS: u64 = 65_536;

/// A `Key` of two IPv4 endpoints, each as one number: its address and then its port.
/// Two pairs are equal where two numbers are, and two keys where each field is.
#[derive(Drop)]
pub(crate) struct Pair {
    lo: u64,
    hi: u64,
}

impl Model for Pair {
    ghost use Rattle.std.specs.Prelude.{◌≤◌, ◌<◌, ◌^◌};
    ghost use Rattle.flow_table.specs.Key.{EndpointPair};
    ghost use Rattle.flow_table.specs.Pair.{endpoint_of};

    ghost Value = { EndpointPair };

    ghost view = { λ pair. (endpoint_of pair.lo, endpoint_of pair.hi) };

    ghost invariant = { λ pair. (pair.lo ≤ pair.hi) × (pair.hi < 2 ^ 48) };
}

// The endpoint that a number stands for.
fn endpoint_of(number: u64) -> Endpoint
    requires { number < 2 ^ 48 }
    ensures { result ≡ endpoint_of number }
{
    Endpoint::V4 {
        addr: (number / PORTS) as u32,
        port: (number % PORTS) as u16,
    }
}

// The number of an endpoint of IPv4.
#[inline(always)]
fn number_of(endpoint: &Endpoint) -> Option<u64>
    ensures ipv4 { is_some result ≡ is_ipv4 endpoint.now }
    ensures within { IfSome result (λ number. number < 2 ^ 48) }
    ensures number { IfSome result (λ number. endpoint_of number ≡ endpoint.now) }
{
    match *endpoint {
        Endpoint::V4 { addr, port } => Some(u64::from(addr) * PORTS + u64::from(port)),
        Endpoint::V6 { .. } => None,
    }
}

impl Pair {
    /// The pair of a key, where both endpoints are of IPv4.
    #[inline(always)]
    pub(crate) fn of(key: &Key) -> Option<Pair>
        ensures ipv4 { is_some result ≡ is_ipv4_pair key.now }
        ensures pair { IfSome result (λ pair. pair ≡ key.now) }
    {
        let Endpoint::V4 { addr, port } = key.lo else {
            return None;
        };
        let lo = u64::from(addr) * PORTS + u64::from(port);
        let Endpoint::V4 { addr, port } = key.hi else {
            return None;
        };
        let hi = u64::from(addr) * PORTS + u64::from(port);
        Some(Pair { lo, hi })
    }

    /// The pair of two endpoints in either order, where both are of IPv4: two numbers tell which is the lower one.
    #[inline(always)]
    pub(crate) fn between(a: &Endpoint, b: &Endpoint) -> Option<Pair>
        ensures ipv4 { is_some result ≡ is_ipv4_pair (key_between a.now b.now) }
        ensures pair { IfSome result (λ pair. pair ≡ key_between a.now b.now) }
    {
        let one = number_of(a)?;
        let other = number_of(b)?;
        if one <= other {
            Some(Pair { lo: one, hi: other })
        } else {
            Some(Pair { lo: other, hi: one })
        }
    }

    /// The key that it is the pair of.
    pub(crate) fn key(&self) -> Key
        ensures key { result ≡ self.now }
        ensures ipv4 { is_ipv4_pair self.now ≡ true }
    {
        Key {
            lo: endpoint_of(self.lo),
            hi: endpoint_of(self.hi),
        }
    }
}

impl PartialEq for Pair {
    ghost use Rattle.std.specs.Cmp.{partial_equiv_from_equiv};
    ghost use Rattle.flow_table.specs.contracts.key.KeyPartialEq.TheImpl.{ghosts as ends};
    ghost use Rattle.flow_table.specs.Pair.{pairs_equiv};

    ghost eq = { ends.eq };

    ghost laws = { partial_equiv_from_equiv pairs_equiv };

    fn eq(&self, other: &Pair) -> bool {
        self.lo == other.lo && self.hi == other.hi
    }
}

impl Eq for Pair {
    ghost use Rattle.flow_table.specs.Pair.{pairs_equiv};

    ghost laws = { pairs_equiv };
}

/// A pair is hashed as its key is: the lower number is joined with what the table's seed made of the hasher and is multiplied by
/// a fixed factor, and the higher one is joined with that product and multiplied likewise. Whoever doesn't know the seed knows
/// neither product, and so can't choose pairs that collide. Hashed as one number of 128 bits, the two would be factors of one
/// product: then whoever sends packets would choose a factor, and could take one that has few products.
impl Hash for Pair {
    ghost use Rattle.flow_table.specs.Pair.{pair_hash_input, paired_alike};

    ghost hash_input = { pair_hash_input };

    ghost respects_eq = { paired_alike };

    #[inline(always)]
    fn hash<H: Hasher>(&self, state: &mut H) {
        self.lo.hash(state);
        self.hi.hash(state);
    }
}
