//! The end of a connection that was silent for too long.

ghost use Rattle.std.specs.Prelude.{◌≡◌, ◌<◌, ◌^◌, OnOk};
ghost use Rattle.app_api.specs.Events.{TIMER as EVENT};
ghost use Rattle.native_filters.specs.declared.facts.Hook.TheVariants.{Rcv};
ghost use Rattle.connection_core.specs.Trees.{IsForestInForce};
ghost use Rattle.connection_core.specs.Silence.{silenced};
ghost use Rattle.connection_core.specs.Standing.{RiseBy};
ghost use Rattle.connection_core.specs.Calls.{running, state_in, ForConnection, IsNotedOf};

use crate::arrival::RaiseAt;
use crate::flow::Flow;
use crate::ledger::{Ledger, Notes};
use crate::terms::Terms;
use app_api::{App, TIMER};
use builtin_events::FactSource;
use native_filters::{Facts, Hook};
use shared_forest::ForestView;
use std::alloc::AllocError;
use tcp_emulation::Side;

/// The callbacks of a connection that ended by idleness: those of one raise of `timer`, at the receiver's hook, with the
/// number of the connection's last packet. They peek at the client's stream. The changes and drops that are asked come
/// to nothing. Only what is noted of the record goes on.
pub fn silence<A: App, F: ForestView>(
    terms: &Terms<A>,
    forests: &F,
    flow: Flow,
    number: u64,
    facts: &Facts,
    notes: &mut Notes,
    ledger: &mut Ledger,
) -> Result<(), AllocError>
    requires answered { F.answered forests.now flow.forest }
    requires forest { IsForestInForce terms.now.in_force (F.content forests.now flow.forest) }
    requires callbacks { ledger.old.counts.callbacks < 2 ^ 60 }
    requires weight { ledger.old.counts.weight < 2 ^ 60 }
    ensures stands { OnOk result (ForConnection (running A.meaning terms.now)
        (state_in F.ForestView forests.now flow notes.old ledger.old)
        (λ app s others h. IsNotedOf terms.now.keep others
        (silenced app s number (record { hook = Rcv; event = EVENT; facts = facts.now }) h)
        notes.new ledger.new)) }
    ensures rise { RiseBy 255 ledger.old.counts ledger.new.counts }
{
    ledger.begin();
    let Flow { socket, forest, .. } = flow;
    let mut socket = socket;
    let raise_at = RaiseAt {
        number,
        from: Side::Client,
        hook: Hook::Rcv,
        event: TIMER,
        source: FactSource::Made(facts),
    };
    let tree = forests.tree_of(&forest);
    terms.call_at(tree, &raise_at, &mut socket, notes, ledger)
}
