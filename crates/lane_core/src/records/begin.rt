//! A packet that begins a record.

ghost use Rattle.std.specs.Prelude.{◌≡◌, ◌+◌, ◌≤◌, ◌^◌, IfOk, OnOk, OnErr, None, Some, not, true};
ghost use Rattle.std.specs.FinMap as map;
ghost use Rattle.std.specs.Option.{option_copied};
ghost use Rattle.flow_table.specs.Table.{found};
ghost use Rattle.shared_forest.specs.Listing.{listing};
ghost use Rattle.shared_forest.specs.Store.{Keeps};
ghost use Rattle.event_trees.specs.Edit.{IsForestOf};
ghost use Rattle.forest_versions.specs.State.{active};
ghost use Rattle.builtin_events.specs.Raised.{raises_of};
ghost use Rattle.report_text.specs.declared.record.RecordKind.TheVariants.{Conn};
ghost use Rattle.connection_core.specs.Standing.{RiseBy};
ghost use Rattle.connection_core.specs.Calls.{HasRoom};
ghost use Rattle.connection_core.specs.Trees.{InternsWithin};
ghost use Rattle.ip6_views.specs.Seen.{seen};
ghost use Rattle.lane_core.specs.End.{new_slot};
ghost use Rattle.lane_core.specs.Live.{IsLive, IsCalled, HasFirst};
ghost use Rattle.lane_core.specs.Sight.{Tcp, key_of_segment};
ghost use Rattle.lane_core.specs.Records.{opens};
ghost use Rattle.lane_core.specs.Idle.{IsPutWhere};
ghost use Rattle.lane_core.specs.Steps.{taking, stage_in, IsOrphanNoted, Opens, opened_by};
ghost use Rattle.lane_core.specs.Opening.{IsNew};
ghost use Rattle.lane_core.specs.Packets.{HasCome, Places, CostsToPlace, PlacesOrphan, IsTaken};

use crate::connection::Connection;
use crate::records::Records;
use crate::records::follow::step_one;
use crate::terms::{PacketTerms, terms_under};
use crate::under_way::RecordUnderWay;
use app_api::{App, Verdict};
use builtin_events::{Raised, raised_by_orphan};
use connection_core::laws::first_tree_names_the_first_list;
use connection_core::{Flow, InForce, Ledger, Step, Terms, orphan};
use flow_table::{FlowTable, Key};
use forest_versions::Master;
use ip6_views::SightTcp;
use packet_views::{Class, Head};
use report_text::RecordKind;
use shared_forest::{Forests, Shared};
use std::alloc::AllocError;

// A connection that a segment opens, before this segment, with the tree of the registrations that are on now. Its record
// stands at a place.
fn new_connection<A: App, F: Forests>(
    terms: &PacketTerms<'_, A>,
    master: &Master,
    forests: &F,
    forest: Shared,
    place: usize,
    segment: &SightTcp<'_>,
) -> Connection
    requires answered { F.answered forests.now forest }
    requires tree { IsForestOf master.now.now.defs (active master.now.now) (listing (F.content forests.now forest)) }
    ensures place { result.place ≡ place }
    ensures called { IsCalled (F.answered forests.now) (F.content forests.now) master.now result }
    ensures new { IsNew (taking A.meaning terms.now) master.now
        (F.content forests.now result.flow.forest) (seen segment.now) result }
{
    let version = master.version();
    let in_force = InForce { master, version };
    first_tree_names_the_first_list(&in_force, forests.tree_of(&forest));
    master.tells_the_present();
    Connection {
        place,
        client: segment.from,
        version,
        last: terms.number,
        moment: terms.moment,
        flow: Flow::new(terms.alloc, &in_force, forest),
    }
}

// Steps a new connection by the segment that opens it, and its record with it, where both stand.
#[inline(never)]
fn start_one<A: App, F: Forests>(
    terms: &PacketTerms<'_, A>,
    master: &Master,
    forests: &mut F,
    conn: &mut Connection,
    slot: &mut RecordUnderWay,
    ledger: &mut Ledger,
    segment: &SightTcp<'_>,
) -> Result<Step, AllocError>
    requires called { IsCalled (F.answered forests.old) (F.content forests.old) master.now conn.old }
    requires new { IsNew (taking A.meaning terms.now) master.now
        (F.content forests.old conn.old.flow.forest) (seen segment.now) conn.old }
    requires room { HasRoom (2 ^ 60) ledger.old.counts }
    requires empty { slot.old ≡ new_slot terms.now.number (Conn (seen segment.now).sender (seen segment.now).receiver)
        master.now.version (A.meaning terms.now.app.now).fresh }
    ensures kept { Keeps F.answered F.content forests.old forests.new }
    ensures rise { RiseBy 4080 ledger.old.counts ledger.new.counts }
    ensures place { conn.new.place ≡ conn.old.place }
    ensures live { IsLive (F.answered forests.new) (F.content forests.new) master.now (conn.old.place + 1) 1 conn.new }
    ensures stands { IfOk result (Opens (taking A.meaning terms.now) master.now
        ledger.old.counts (F.interns forests.old)
        (stage_in F.ForestView forests.new conn.new slot.new ledger.new.counts) (seen segment.now)) }
    ensures interned { InternsWithin (F.interns forests.old) (F.interns forests.new) 0
        (opened_by (A.meaning terms.now.app.now) master.now.now terms.now.number (seen segment.now)).altered }
{
    master.tells_the_present();
    step_one(terms, master, forests, conn, slot, ledger, segment)
}

// The callbacks of a packet of no connection, noted in a record that has none before.
fn orphan_at<A: App, F: Forests>(
    terms: &PacketTerms<'_, A>,
    master: &Master,
    forests: &F,
    raised: Raised,
    slot: &mut RecordUnderWay,
    ledger: &mut Ledger,
) -> Result<Verdict, AllocError>
    requires first { HasFirst (F.answered forests.now) (F.content forests.now) master.now }
    requires room { HasRoom (2 ^ 60) ledger.old.counts }
    ensures rise { RiseBy 2040 ledger.old.counts ledger.new.counts }
    ensures stands { IfOk result (IsOrphanNoted (taking A.meaning terms.now) master.now.now
        (record { slot = slot.old; counts = ledger.old.counts })
        (record { slot = slot.new; counts = ledger.new.counts }) (raises_of raised)) }
{
    let called = terms_under!(terms, master, master.version());
    let forest = master.forest();
    first_tree_names_the_first_list(&called.in_force, forests.tree_of(forest));
    master.tells_the_present();
    let notes = &mut slot.notes;
    let verdict = orphan(
        &called,
        forests,
        forest,
        terms.number,
        raised,
        notes,
        ledger,
    )?;
    slot.note(terms.number, verdict)?;
    Ok(verdict)
}

// Puts a connection into the table, unless it is over.
fn keep(
    connections: &mut FlowTable<Connection>,
    key: Key,
    conn: Connection,
    over: bool,
) -> Result<(), AllocError>
    requires absent { found connections.old key ≡ None }
    ensures left { OnOk result (IsPutWhere (not over) connections.old connections.new key (Some conn)) }
    ensures err { OnErr result (connections.new ≡ connections.old) }
    ensures more { map.len connections.new ≤ map.len connections.old + 1 }
{
    if over {
        return Ok(());
    }
    match connections.open(key, conn) {
        Ok(()) => Ok(()),
        Err(_) => Err(AllocError),
    }
}

impl<F: Forests + Drop> Records<F> {
    /// A segment that opens a connection.
    pub(crate) fn begin<A: App>(
        &mut self,
        terms: &PacketTerms<'_, A>,
        key: Key,
        segment: &SightTcp<'_>,
    ) -> Result<Verdict, AllocError>
        requires key { key ≡ key_of_segment (seen segment.now) }
        requires absent { found self.old.connections key ≡ None }
        requires opens { opens (Tcp (seen segment.now)) ≡ true }
        requires come { HasCome terms.now.number self.old }
        ensures stands { IfOk result (Places (taking A.meaning terms.now) self.old self.new (Tcp (seen segment.now))) }
        ensures failed { OnErr result
            (CostsToPlace (taking A.meaning terms.now) self.old self.new (Tcp (seen segment.now))) }
    {
        let version = self.master.version();
        let kind = RecordKind::Conn {
            client: segment.from,
            server: segment.to,
        };
        let record = RecordUnderWay::new(
            terms.alloc,
            terms.number,
            kind,
            version,
            terms.app.fresh(),
        );
        let place = self.list.len();
        self.list.push(record)?;
        let forest = self.forests.again(terms.alloc, self.master.forest())?;
        let mut conn = new_connection(terms, &self.master, &self.forests, forest, place, segment);
        let slot = &mut self.list[place];
        let step = start_one(
            terms,
            &self.master,
            &mut self.forests,
            &mut conn,
            slot,
            &mut self.ledger,
            segment,
        )?;
        keep(&mut self.connections, key, conn, step.over)?;
        Ok(step.verdict)
    }

    /// A packet of no connection; of class tcp it has a head.
    pub(crate) fn orphan<A: App>(
        &mut self,
        terms: &PacketTerms<'_, A>,
        class: Class,
        head: Option<&Head>,
    ) -> Result<Verdict, AllocError>
        requires come { HasCome terms.now.number self.old }
        ensures stands { IfOk result
            (PlacesOrphan (taking A.meaning terms.now) self.old self.new class (option_copied head.entry)) }
        ensures forests { self.new.forests ≡ self.old.forests }
        ensures taken { IsTaken terms.now.number self.old self.new }
    {
        let version = self.master.version();
        let kind = RecordKind::Orphan { class };
        let mut slot = RecordUnderWay::new(
            terms.alloc,
            terms.number,
            kind,
            version,
            terms.app.fresh(),
        );
        let raised = raised_by_orphan(class, head);
        let verdict = orphan_at(
            terms,
            &self.master,
            &self.forests,
            raised,
            &mut slot,
            &mut self.ledger,
        )?;
        self.list.push(slot)?;
        Ok(verdict)
    }
}
