//! A segment of an open connection.

ghost use Rattle.std.specs.Prelude.{◌≡◌, ◌+◌, ◌<◌, ◌≤◌, ◌^◌, IfOk, OnErr, IfSome, None, Some, Ok};
ghost use Rattle.std.specs.FinMap as map;
ghost use Rattle.flow_table.specs.Table.{found};
ghost use Rattle.connection_core.specs.Standing.{RiseBy};
ghost use Rattle.connection_core.specs.Calls.{HasRoom};
ghost use Rattle.ip6_views.specs.Seen.{seen};
ghost use Rattle.lane_core.specs.Sight.{key_of_segment};
ghost use Rattle.lane_core.specs.Live.{IsCalled, CarriesOn};
ghost use Rattle.lane_core.specs.Idle.{IsGone, IsPutWhere};
ghost use Rattle.lane_core.specs.Steps.{taking, stage_in, IsStep, FailsStep};
ghost use Rattle.lane_core.specs.Packets.{Follows, Costs, MayCome};

use crate::connection::Connection;
use crate::records::Records;
use crate::records::idle::was_idle;
use crate::sides::side_of;
use crate::terms::{PacketTerms, terms_under};
use crate::under_way::RecordUnderWay;
use app_api::App;
use connection_core::{Arrived, InForce, Ledger, Step, Terms};
use flow_table::FlowTable;
use forest_versions::Master;
use ip6_views::{SightTcp, key_between};
use shared_forest::Forests;
use std::alloc::AllocError;

// Steps an open connection, and notes in its record what became of the packet.
#[inline(always)]
pub(crate) fn step_one<A: App, F: Forests>(
    terms: &PacketTerms<'_, A>,
    master: &Master,
    forests: &mut F,
    conn: &mut Connection,
    slot: &mut RecordUnderWay,
    ledger: &mut Ledger,
    segment: &SightTcp<'_>,
) -> Result<Step, AllocError>
    requires count { conn.old.flow.count < 2 ^ 30 }
    requires called { IsCalled (F.answered forests.old) (F.content forests.old) master.now conn.old }
    requires room { HasRoom (2 ^ 60) ledger.old.counts }
    ensures carries_on { CarriesOn F.ForestView master.now forests.old forests.new conn.old conn.new }
    ensures rise { RiseBy 4080 ledger.old.counts ledger.new.counts }
    ensures stands { IfOk result (IsStep (taking A.meaning terms.now) master.now
        (stage_in F.ForestView forests.old conn.old slot.old ledger.old.counts)
        (stage_in F.ForestView forests.new conn.new slot.new ledger.new.counts) (seen segment.now)) }
    ensures costs { OnErr result (FailsStep (taking A.meaning terms.now) master.now
        (stage_in F.ForestView forests.old conn.old slot.old ledger.old.counts)
        (F.interns forests.new) (seen segment.now)) }
{
    let called = terms_under!(terms, master, conn.version);
    let arrived = Arrived {
        number: terms.number,
        from: side_of(&conn.client, segment),
        head: &segment.head,
        scale: segment.scale,
        payload: segment.payload,
    };
    let step = conn
        .flow
        .step(&called, forests, &arrived, &mut slot.notes, ledger)?;
    slot.note(terms.number, step.verdict)?;
    conn.last = terms.number;
    conn.moment = terms.moment;
    Ok(step)
}

// Takes the connection of a segment from the table where it is over. For that alone its key is made.
#[inline(always)]
fn settle(connections: &mut FlowTable<Connection>, segment: &SightTcp<'_>, over: bool)
    ensures left { IsPutWhere over connections.old connections.new (key_of_segment (seen segment.now)) None }
    ensures fewer { map.len connections.new ≤ map.len connections.old }
{
    if !over {
        return;
    }
    connections.forget(&key_between(segment.from, segment.to));
}

impl<F: Forests + Drop> Records<F> {
    /// Steps the open connection of a segment, where there is one that wasn't idle for too long, and closes it where it is over
    /// then. `None` leaves all as it was.
    #[inline(always)]
    pub(crate) fn follow<A: App>(
        &mut self,
        terms: &PacketTerms<'_, A>,
        segment: &SightTcp<'_>,
    ) -> Result<Option<Step>, AllocError>
        requires comes { MayCome terms.now.number self.old }
        ensures none { result ≡ Ok None
            → IsGone self.old.master terms.now.moment (found self.old.connections (key_of_segment (seen segment.now)))
            × (self.new ≡ self.old) }
        ensures some { IfOk result (λ taken. IfSome taken (λ step.
            Follows (taking A.meaning terms.now) self.old self.new (seen segment.now) step)) }
        ensures failed { OnErr result (Costs (taking A.meaning terms.now) self.old self.new (seen segment.now)) }
    {
        let found = self.connections.get_mut_between(&segment.from, &segment.to);
        let Some(conn) = found else {
            return Ok(None);
        };
        if was_idle(&self.master, conn, terms.moment) {
            return Ok(None);
        }
        self.next = terms.number + 1;
        let slot = &mut self.list[conn.place];
        let step = step_one(
            terms,
            &self.master,
            &mut self.forests,
            conn,
            slot,
            &mut self.ledger,
            segment,
        )?;
        settle(&mut self.connections, segment, step.over);
        Ok(Some(step))
    }
}
