//! One end of a connection: an address and a port.

ghost use Rattle.std.specs.Prelude.{◌≡◌};
ghost use Rattle.flow_table.specs.Hashing.{hash_input, hashed_alike};

use packet_views::Head;
use std::hash::{Hash, Hasher};

/// An IPv4 or IPv6 address with a TCP port. IPv4 comes before IPv6, then the address decides, then
/// the port.
#[derive(Clone, Copy, Debug, PartialEq, Eq, PartialOrd, Ord)]
pub enum Endpoint {
    /// An IPv4 address (RFC 791) as a number, the first byte highest.
    V4 { addr: u32, port: u16 },
    /// An IPv6 address (RFC 8200) as a number, the first byte highest.
    V6 { addr: u128, port: u16 },
}

impl Endpoint {
    ghost use Rattle.flow_table.specs.Endpoint.{source_of, destination_of};

    /// Who sent a segment.
    #[tactic(auto, unfolding(crate::specs::Endpoint::source_of))]
    pub fn source_of(head: &Head) -> Endpoint
        ensures { result ≡ source_of head.now }
    {
        Endpoint::V4 {
            addr: head.src,
            port: head.sport,
        }
    }

    /// To whom a segment was sent.
    #[tactic(auto, unfolding(crate::specs::Endpoint::destination_of))]
    pub fn destination_of(head: &Head) -> Endpoint
        ensures { result ≡ destination_of head.now }
    {
        Endpoint::V4 {
            addr: head.dst,
            port: head.dport,
        }
    }
}

/// An IPv4 endpoint is hashed as one number: one step of the hasher in place of three.
impl Hash for Endpoint {
    ghost hash_input = { hash_input };

    ghost respects_eq = { hashed_alike };

    fn hash<H: Hasher>(&self, state: &mut H) {
        match *self {
            Endpoint::V4 { addr, port } => (u64::from(addr) * 65536 + u64::from(port)).hash(state),
            Endpoint::V6 { addr, port } => {
                addr.hash(state);
                port.hash(state);
            }
        }
    }
}
