//! What rules decide on a packet.

ghost use Rattle.std.specs.Prelude.{◌≡◌, ℕ, ◌<◌, ◌≤◌, All, Any, IsTrue, ◌↔◌, false, ◌&&◌};
ghost use Rattle.std.specs.Option.{option_copied};
ghost use Rattle.native_filters.specs.Native.{in_net};
ghost use Rattle.app_api.specs.App.{are_rules};
ghost use Rattle.app_firewall.specs.Decision.{is_in, decided_by, decision, matches};

use app_api::Rule;
use native_filters::Facts;

/// What rules decide on a packet of a connection: whether it may pass, and the number of the rule that says so, which
/// is the matching rule with the least number. `(false, 0)` exactly where no rule matches.
///
/// The rules stand by rising number, from 1 on. A rule matches where the client's address is in its first net, the
/// server's address is in its second net, and the server's port is from `low` to `high`. Takes no memory.
pub fn decide(rules: &[Rule], facts: &Facts) -> (bool, u8)
    requires { IsTrue (are_rules rules.now) }
    ensures decision { result ≡ decision rules.now facts.now }
    ensures matching { 0 < result.1
        → Any (λ r. IsTrue (matches facts.now r) × ((r.allow, r.number) ≡ result)) rules.now }
    ensures least { All (λ r. IsTrue (matches facts.now r) → result.1 ≤ r.number) rules.now }
    ensures none { (result ≡ (false, 0)) ↔ All (λ r. matches facts.now r ≡ false) rules.now }
{
    decided_by(rules.iter().find(|rule| matches(rule, facts)))
}

// What a rule decides, or that none was found.
fn decided_by(rule: Option<&Rule>) -> (bool, u8)
    ensures { result ≡ decided_by (option_copied rule.entry) }
{
    match rule {
        Some(rule) => (rule.allow, rule.number),
        None => (false, 0),
    }
}

// Whether a rule matches a packet. Its client is the packet's source where it goes up, which is dir 0.
fn matches(rule: &Rule, facts: &Facts) -> bool
    ensures { result ≡ matches facts.now rule.now }
{
    let (client, server, port) = if facts.dir == 0 {
        (facts.src, facts.dst, facts.dport)
    } else {
        (facts.dst, facts.src, facts.sport)
    };
    is_in_net(client, rule.src, rule.src_len)
        && is_in_net(server, rule.dst, rule.dst_len)
        && u64::from(rule.low) <= port
        && port <= u64::from(rule.high)
}

// Whether an address lies in a net: each in one of length 0.
fn is_in_net(addr: u64, net: u32, length: u8) -> bool
    ensures { result ≡ is_in addr net length }
{
    length == 0 || agrees(addr, net, length)
}

// Whether an IPv4 address agrees with a net in its first `length` bits. A length over 32 counts as 32.
fn agrees(addr: u64, net: u32, length: u8) -> bool
    ensures { result ≡ in_net addr net length }
{
    let rest = u32::from(32u8.saturating_sub(length));
    addr >> rest == u64::from(net) >> rest
}
