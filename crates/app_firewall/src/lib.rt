//! A firewall: rules on the client's net, the server's net and the server's port decide which packets of connections pass, and
//! `FirewallApp` is the application that drops the others, and orphans that aren't of class other.
//!
//! Contract: `decide` answers what the matching rule with the least number says, and `(false, 0)` exactly where no rule
//! matches; the application is that of its definition.
//! Begin with `specs/Decision.antt`, then `specs/Firewall.antt`; `specs/Laws.antt` and `src/laws.rt` say what rules mean to an
//! administrator.
//! Tests: `event_tests` (firewall).
#![tactic(auto)]

mod decision;
mod firewall;
mod laws;

pub use decision::decide;
pub use firewall::FirewallApp;
pub use laws::{allow_any_refuses_no_connection, covered_rule_never_decides};
