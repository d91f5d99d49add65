//! Packets that belong to no connection.

ghost use Rattle.std.specs.Prelude.{◌≡◌, ◌<◌, ◌^◌, OnOk, IfOk};
ghost use Rattle.builtin_events.specs.Raised.{raises_of};
ghost use Rattle.connection_core.specs.Trees.{IsForestInForce};
ghost use Rattle.connection_core.specs.History.{orphan_history, orphan_verdict, drops_of};
ghost use Rattle.connection_core.specs.Standing.{RiseBy};
ghost use Rattle.connection_core.specs.Calls.{running, ForOrphan, IsNotedOf};

use crate::arrival::Phase;
use crate::flow::verdict_of;
use crate::ledger::{Ledger, Notes};
use crate::terms::Terms;
use app_api::{App, Verdict};
use builtin_events::{FactSource, Raised, Raising};
use flow_socket::FlowSocket;
use shared_forest::{ForestView, Shared};
use std::alloc::AllocError;
use tcp_emulation::Side;

/// The callbacks of a packet of no connection, over the tree of the registrations that are on. It is as if it belonged
/// to a connection that heard nothing, and the changes that are asked come to nothing.
pub fn orphan<A: App, F: ForestView>(
    terms: &Terms<A>,
    forests: &F,
    forest: &Shared,
    number: u64,
    raised: Raised,
    notes: &mut Notes,
    ledger: &mut Ledger,
) -> Result<Verdict, AllocError>
    requires answered { F.answered forests.now forest.now }
    requires forest { IsForestInForce terms.now.in_force (F.content forests.now forest.now) }
    requires callbacks { ledger.old.counts.callbacks < 2 ^ 60 }
    requires weight { ledger.old.counts.weight < 2 ^ 60 }
    ensures stands { OnOk result (ForOrphan (running A.meaning terms.now)
        (F.content forests.now forest.now) notes.old ledger.old
        (λ app s others. IsNotedOf terms.now.keep others
        (orphan_history app s number (raises_of raised)) notes.new ledger.new)) }
    ensures verdict { IfOk result (λ verdict. ForOrphan (running A.meaning terms.now)
        (F.content forests.now forest.now) notes.old ledger.old
        (λ app s others. verdict ≡ orphan_verdict app s number (raises_of raised))) }
    ensures drops { IfOk result (λ verdict. ForOrphan (running A.meaning terms.now)
        (F.content forests.now forest.now) notes.old ledger.old
        (λ app s others. (orphan_history app s number (raises_of raised)).drops ≡ drops_of verdict number)) }
    ensures rise { RiseBy 2040 ledger.old.counts ledger.new.counts }
{
    ledger.begin();
    let Raised {
        hook,
        facts,
        events,
    } = raised;
    let phase = Phase {
        number,
        from: Side::Client,
        raising: Raising {
            hook,
            source: FactSource::Made(&facts),
            events,
        },
    };
    let mut socket = FlowSocket::new(terms.alloc, terms.in_force.rbuf(), terms.in_force.policy());
    let tree = forests.tree_of(forest);
    terms.raise_all(tree, &phase, &mut socket, notes, ledger)?;
    Ok(verdict_of(ledger.drop))
}
