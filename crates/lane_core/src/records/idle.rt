//! A connection that ends because it was idle for too long.

ghost use Rattle.std.specs.Prelude.{◌≡◌, ◌<◌, ◌^◌, OnOk, None};
ghost use Rattle.flow_table.specs.Table.{found};
ghost use Rattle.connection_core.specs.Standing.{RiseBy};
ghost use Rattle.connection_core.specs.Calls.{HasRoom};
ghost use Rattle.lane_core.specs.Trees.{IsTree};
ghost use Rattle.lane_core.specs.Idle.{IsIdle, IsGone, IsEnded, raise_in};
ghost use Rattle.lane_core.specs.Steps.{taking, stage_in};
ghost use Rattle.lane_core.specs.Packets.{Leaves, Ends};

use crate::connection::Connection;
use crate::records::Records;
use crate::terms::{PacketTerms, terms_under};
use crate::under_way::RecordUnderWay;
use app_api::App;
use builtin_events::raised_by_silence;
use connection_core::{InForce, Ledger, Terms, silence};
use flow_table::Key;
use flow_timers::{Moment, is_idle};
use forest_versions::Master;
use native_filters::Facts;
use report_text::RecordKind;
use shared_forest::Forests;
use std::alloc::AllocError;

/// Whether an open connection was idle for longer than the limit of its version. Where nothing is limited now, no version
/// is looked up.
#[inline(always)]
pub(crate) fn was_idle(master: &Master, conn: &Connection, now: Moment) -> bool
    ensures { IsIdle master.now conn.now now result }
{
    if !master.is_timed() {
        return false;
    }
    match master.idle_at(conn.version) {
        Some(limit) => is_idle(conn.moment, now, limit),
        None => false,
    }
}

// The facts of the end of a record of so many packets. Only a connection ends.
fn facts_of(kind: RecordKind, count: u64) -> Facts
    ensures { result ≡ (raise_in kind count).facts }
{
    match kind {
        RecordKind::Conn { client, server } => raised_by_silence(client, server, count).facts,
        RecordKind::Orphan { .. } => Facts::none(),
    }
}

// Calls for the end of a connection, and notes it in its record.
fn call_idle<A: App, F: Forests>(
    terms: &PacketTerms<'_, A>,
    master: &Master,
    forests: &F,
    conn: Connection,
    slot: &mut RecordUnderWay,
    ledger: &mut Ledger,
) -> Result<(), AllocError>
    requires answered { F.answered forests.now conn.flow.forest }
    requires tree { IsTree master.now conn.version (F.content forests.now conn.flow.forest) }
    requires room { HasRoom (2 ^ 60) ledger.old.counts }
    ensures called { OnOk result (IsEnded (taking A.meaning terms.now) master.now
        (stage_in F.ForestView forests.now conn slot.old ledger.old.counts)
        (record { slot = slot.new; counts = ledger.new.counts })) }
    ensures rise { RiseBy 255 ledger.old.counts ledger.new.counts }
{
    let called = terms_under!(terms, master, conn.version);
    let facts = facts_of(slot.kind, conn.flow.count);
    let Connection { last, flow, .. } = conn;
    silence(
        &called,
        forests,
        flow,
        last,
        &facts,
        &mut slot.notes,
        ledger,
    )
}

impl<F: Forests + Drop> Records<F> {
    /// Ends the open connection of a key, which was idle for too long, where there is one. Where nothing is limited there is none.
    pub(crate) fn end_idle<A: App>(
        &mut self,
        terms: &PacketTerms<'_, A>,
        key: &Key,
    ) -> Result<(), AllocError>
        requires gone { IsGone self.old.master terms.now.moment (found self.old.connections key.now) }
        ensures stands { OnOk result (Ends (taking A.meaning terms.now) self.old self.new key.now) }
        ensures left { Leaves self.old self.new }
        ensures next { self.new.next ≡ self.old.next }
        ensures absent { found self.new.connections key.now ≡ None }
    {
        self.master.tells_each_version();
        if !self.master.is_timed() {
            return Ok(());
        }
        let Some(conn) = self.connections.close(key) else {
            return Ok(());
        };
        let slot = &mut self.list[conn.place];
        call_idle(
            terms,
            &self.master,
            &self.forests,
            conn,
            slot,
            &mut self.ledger,
        )
    }
}
