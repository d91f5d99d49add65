//! What the tallies mean, in an accountant's words. Each law is the contract of a function that does nothing.

ghost use Rattle.std.specs.Prelude.{List};
ghost use Rattle.app_api.specs.declared.app.Call.{Call as CallOf};
ghost use Rattle.app_traffic.specs.Laws.{Accounts, Retransmissions};

/// After any calls, each count of packets and bytes is the sum over these calls, modulo 2^64, and each state
/// and position is that of the last call which tells it.
pub fn accounts_of_the_calls()
    ensures { (calls : List CallOf) → Accounts calls }
{}

/// After any calls, the retransmitted packets, their old bytes and the differing ones, and the later packets
/// are the sums over these calls, modulo 2^64.
pub fn retransmissions_of_the_calls()
    ensures { (calls : List CallOf) → Retransmissions calls }
{}
