//! The six native filters, each as a function of the facts.

ghost use Rattle.std.specs.Prelude.{◌≡◌, ◌&&◌, ◌||◌, ◌==◌};
ghost use Rattle.native_filters.specs.Native.{native, has_bits, is_private};

use crate::facts::Facts;

/// The control bits of the TCP header that the native filters read (RFC 9293, 3.1).
const FIN: u64 = 0x01;

const SYN: u64 = 0x02;

const RST: u64 = 0x04;

const ACK: u64 = 0x10;

/// Ports below this one are the system ports (RFC 6335, 6).
const FIRST_USER_PORT: u64 = 1024;

/// Native filter 0: a SYN without ACK.
#[tactic(auto, unfolding(crate::specs::Native::native))]
pub fn is_opening(facts: &Facts) -> bool
    ensures { result ≡ native 0 facts.now }
{
    has(facts.flags, SYN) && !has(facts.flags, ACK)
}

/// Native filter 1: a system port at one end.
#[tactic(auto, unfolding(crate::specs::Native::native))]
pub fn has_system_port(facts: &Facts) -> bool
    ensures { result ≡ native 1 facts.now }
{
    facts.sport < FIRST_USER_PORT || facts.dport < FIRST_USER_PORT
}

/// Native filter 2: both ends in networks for private use (RFC 1918, 3).
#[tactic(auto, unfolding(crate::specs::Native::native))]
pub fn is_private_traffic(facts: &Facts) -> bool
    ensures { result ≡ native 2 facts.now }
{
    is_private(facts.src) && is_private(facts.dst)
}

/// Native filter 3: one byte, sent again, as a keep-alive has (RFC 9293, 3.8.4).
#[tactic(auto, unfolding(crate::specs::Native::native))]
pub fn is_keep_alive(facts: &Facts) -> bool
    ensures { result ≡ native 3 facts.now }
{
    facts.len == 1 && facts.rexlen == 1
}

/// Native filter 4: a FIN or an RST.
#[tactic(auto, unfolding(crate::specs::Native::native))]
pub fn is_ending(facts: &Facts) -> bool
    ensures { result ≡ native 4 facts.now }
{
    has(facts.flags, FIN) || has(facts.flags, RST)
}

/// Native filter 5: bytes sent again that differ from those before.
#[tactic(auto, unfolding(crate::specs::Native::native))]
pub fn has_differing_bytes(facts: &Facts) -> bool
    ensures { result ≡ native 5 facts.now }
{
    facts.rexdiff > 0
}

// Whether all bits of a mask are set.
fn has(bits: u64, mask: u64) -> bool
    ensures { result ≡ has_bits bits mask }
{
    bits & mask == mask
}

// Whether an IPv4 address is in one of the blocks for private networks (RFC 1918, 3).
fn is_private(addr: u64) -> bool
    ensures { result ≡ is_private addr }
{
    addr >> 24 == 0x0a || addr >> 20 == 0xac1 || addr >> 16 == 0xc0a8
}
