//! The lane that a key goes to.

ghost use Rattle.std.specs.Prelude.{◌≡◌, ◌<◌, ◌≤◌};
ghost use Rattle.flow_table.specs.Key.{key_between};
ghost use Rattle.flow_table.specs.Lane.{mix_of, lane_of_key};

use crate::endpoint::Endpoint;
use crate::key::Key;

/// 2^64 over the golden ratio, odd: the multiplier of Fibonacci hashing.
const MULTIPLIER: u64 = 0x9e37_79b9_7f4a_7c15;

/// A hash of an endpoint: its address and port as one number of 64 bits, times 9e3779b97f4a7c15
/// (hex), with the upper half of the product folded into the lower one.
#[tactic(auto, unfolding(crate::specs::Lane::mix_of))]
pub fn mix(endpoint: &Endpoint) -> u64
    ensures { result ≡ mix_of endpoint.now }
{
    let number = match *endpoint {
        Endpoint::V4 { addr, port } => u64::from(addr) * 65536 + u64::from(port),
        Endpoint::V6 { addr, port } => {
            let low = addr & u128::from(u64::MAX);
            (addr >> 64) as u64 ^ low as u64 ^ u64::from(port)
        }
    };
    let product = number.wrapping_mul(MULTIPLIER);
    product ^ (product >> 32)
}

/// The lane of a key among so many lanes, at least one, from 0. It is the same for both directions
/// of a connection, since their key is the same.
#[tactic(auto, unfolding(crate::specs::Lane::lane_of_key))]
pub fn lane_of(key: &Key, lanes: usize) -> usize
    requires some { 1 ≤ lanes }
    ensures lane { result ≡ lane_of_key key.now lanes }
    ensures within { result < lanes }
{
    let sum = mix(&key.lo).wrapping_add(mix(&key.hi));
    (sum % lanes as u64) as usize
}

/// The lane of the key of two endpoints, in either order: the sum of two hashes doesn't ask which is lower, so no key is made.
#[tactic(auto, using(crate::proofs::Lanes::lane_of_ends))]
pub fn lane_between(a: &Endpoint, b: &Endpoint, lanes: usize) -> usize
    requires some { 1 ≤ lanes }
    ensures lane { result ≡ lane_of_key (key_between a.now b.now) lanes }
    ensures within { result < lanes }
{
    let sum = mix(a).wrapping_add(mix(b));
    (sum % lanes as u64) as usize
}
