//! The records of one worker's packets, with the table of its open connections.

ghost use Rattle.std.specs.Prelude.{◌≡◌, ◌+◌, ◌<◌, ◌≤◌, ◌^◌, length, vec_len, OnOk, OnErr, IsTrue};
ghost use Rattle.std.specs.FinMap as map;
ghost use Rattle.std.proofs.Props.{props};
ghost use Rattle.shared_forest.specs.Store.{CountsAtMost};
ghost use Rattle.forest_versions.specs.Lawful.{is_lawful};
ghost use Rattle.connection_core.specs.History.{drops_of};
ghost use Rattle.lane_core.specs.Trees.{AllOpen};
ghost use Rattle.lane_core.specs.Live.{IsLive, AreCounted, HasFirst, TakesCommand, LeavesTrees};

use crate::connection::Connection;
use crate::limits::WEIGHT;
use crate::sides::is_opening;
use crate::terms::PacketTerms;
use crate::under_way::RecordUnderWay;
use app_api::{App, Reg, Verdict};
use connection_core::Ledger;
use connection_core::laws::trees_stay;
use flow_table::{FlowTable, seed_of};
use flow_timers::Moment;
use forest_versions::{Command, Master};
use ip6_views::{Sight, SightTcp, key_between, sight_of};
use packet_views::Class;
use shared_forest::Forests;
use std::alloc::{AllocError, Global};

mod begin;
mod end;
mod follow;
mod idle;

/// The records under way, each under the control commands that stand before its first packet, and the open connections.
#[derive(Drop)]
pub(crate) struct Records<F: Forests> {
    pub(crate) master: Master,
    pub(crate) forests: F,
    pub(crate) connections: FlowTable<Connection>,
    /// In order of name.
    pub(crate) list: Vec<RecordUnderWay>,
    /// What the callbacks of the packet under way ask, and the counts of all callbacks.
    pub(crate) ledger: Ledger,
    /// The dropped packets of all records.
    pub(crate) dropped: u64,
    /// One more than the number of the last packet; 0 before the first.
    pub(crate) next: u64,
    ghost live: { AllOpen (IsLive (F.answered forests) (F.content forests) master (vec_len list) next) connections } by { Prim.hlevel (props, F.answered_once forests) },
    ghost counted: { AreCounted ledger.counts (vec_len list) (map.len connections) dropped next } by { Prim.hlevel props },
    ghost first: { HasFirst (F.answered forests) (F.content forests) master } by { Prim.hlevel (props, F.answered_once forests) },
}

impl<F: Forests + Drop> Records<F> {
    ghost use Rattle.std.specs.Prelude.{◌&&◌, nat_lt, IfOk};
    ghost use Rattle.app_api.specs.Reg.{are_presets};
    ghost use Rattle.ip6_views.specs.Seen.{seen, shown};
    ghost use Rattle.lane_core.specs.Sight.{Tcp, Other, sight_of};
    ghost use Rattle.lane_core.specs.Steps.{taking};
    ghost use Rattle.lane_core.specs.Packets.{Adds, AddsCounted, CostsToAdd, StaysUnder, AreAlike, Begins, Gives, MayCome};

    /// No record yet, under an application's presets.
    pub(crate) fn new(alloc: Global, forests: F, presets: &[Reg]) -> Result<Records<F>, AllocError>
        requires lawful { IsTrue (are_presets presets.now) }
        ensures { IfOk result (Begins forests presets.now) }
    {
        let mut forests = forests;
        let master = Master::new(alloc, &mut forests, presets)?;
        Ok(Records {
            master,
            forests,
            connections: FlowTable::new(alloc),
            list: Vec::new(alloc),
            ledger: Ledger::new(alloc),
            dropped: 0,
            next: 0,
        })
    }

    /// One more command. An error leaves what is in force and the store as they were.
    pub(crate) fn give(&mut self, alloc: Global, c: &Command) -> Result<(), AllocError>
        requires lawful { IsTrue (is_lawful self.old.master.now c.now) }
        requires below { self.old.master.version < 4096 }
        ensures given { OnOk result (Gives self.old self.new c.now) }
        ensures refused { OnErr result (StaysUnder self.old self.new) }
        ensures interned { CountsAtMost (F.interns self.old.forests) (F.interns self.new.forests) }
    {
        give_to(alloc, &mut self.master, &mut self.forests, c)
    }

    /// Lets all records go, whose memory goes back at once.
    pub(crate) fn clear(&mut self, alloc: Global)
        ensures { StaysUnder self.old self.new }
    {
        self.connections = FlowTable::new(alloc);
        self.list = Vec::new(alloc);
        self.ledger = Ledger::new(alloc);
        self.dropped = 0;
    }

    /// Whether the entries that are kept weigh too much.
    #[inline(always)]
    pub(crate) fn is_too_heavy(&self, keep: bool) -> bool
        ensures { result ≡ (keep && nat_lt 134217728 self.now.ledger.counts.weight) }
    {
        keep && self.ledger.counts.weight > WEIGHT
    }

    // Draws the table's seed before the first record: who sends packets from afar doesn't know the first frame and its time,
    // and so can't choose endpoints that collide.
    #[inline(always)]
    fn prepare(&mut self, alloc: Global, moment: Moment, bytes: &[u8])
        ensures { AreAlike self.old self.new }
    {
        if !self.list.is_empty() {
            return;
        }
        let seed = seed_of(moment.seconds, moment.fraction, bytes);
        self.connections = FlowTable::with_seed(alloc, seed);
    }

    // A segment.
    #[inline(always)]
    fn segment<A: App>(
        &mut self,
        terms: &PacketTerms<'_, A>,
        segment: &SightTcp<'_>,
    ) -> Result<Verdict, AllocError>
        requires comes { MayCome terms.now.number self.old }
        ensures stands { IfOk result (Adds (taking A.meaning terms.now) self.old self.new (Tcp (seen segment.now))) }
        ensures failed { OnErr result
            (CostsToAdd (taking A.meaning terms.now) self.old self.new (Tcp (seen segment.now))) }
    {
        if let Some(step) = self.follow(terms, segment)? {
            return Ok(step.verdict);
        }
        self.next = terms.number + 1;
        let key = key_between(segment.from, segment.to);
        self.end_idle(terms, &key)?;
        if is_opening(segment) {
            self.begin(terms, key, segment)
        } else {
            self.orphan(terms, Class::Tcp, Some(&segment.head))
        }
    }

    // A packet that is no segment.
    fn other<A: App>(
        &mut self,
        terms: &PacketTerms<'_, A>,
        class: Class,
    ) -> Result<Verdict, AllocError>
        requires comes { MayCome terms.now.number self.old }
        ensures stands { IfOk result (Adds (taking A.meaning terms.now) self.old self.new (Other class)) }
        ensures failed { OnErr result (CostsToAdd (taking A.meaning terms.now) self.old self.new (Other class)) }
    {
        self.next = terms.number + 1;
        self.orphan(terms, class, None)
    }

    // The packet, before it is counted.
    #[inline(always)]
    fn arrive<A: App>(
        &mut self,
        terms: &PacketTerms<'_, A>,
        sight: &Sight<'_>,
    ) -> Result<Verdict, AllocError>
        requires comes { MayCome terms.now.number self.old }
        ensures stands { IfOk result (Adds (taking A.meaning terms.now) self.old self.new (shown sight.now)) }
        ensures failed { OnErr result (CostsToAdd (taking A.meaning terms.now) self.old self.new (shown sight.now)) }
    {
        match sight {
            Sight::Tcp(segment) => self.segment(terms, segment),
            Sight::Other(class) => self.other(terms, *class),
        }
    }

    /// One more packet, of these captured bytes.
    #[inline(always)]
    pub(crate) fn take<A: App>(
        &mut self,
        terms: &PacketTerms<'_, A>,
        bytes: &[u8],
    ) -> Result<Verdict, AllocError>
        requires comes { MayCome terms.now.number self.old }
        ensures stands { IfOk result
            (AddsCounted (taking A.meaning terms.now) self.old self.new (sight_of bytes.now)) }
        ensures failed { OnErr result
            (CostsToAdd (taking A.meaning terms.now) self.old self.new (sight_of bytes.now)) }
    {
        self.prepare(terms.alloc, terms.moment, bytes);
        let sight = sight_of(bytes);
        let verdict = self.arrive(terms, &sight)?;
        self.dropped = counted(self.dropped, verdict);
        Ok(verdict)
    }
}

// Gives a command to a master. What earlier versions registered is called by the same trees as before.
fn give_to<F: Forests>(
    alloc: Global,
    master: &mut Master,
    forests: &mut F,
    c: &Command,
) -> Result<(), AllocError>
    requires first { HasFirst (F.answered forests.old) (F.content forests.old) master.old }
    requires lawful { IsTrue (is_lawful master.old.now c.now) }
    requires below { master.old.version < 4096 }
    ensures taken { OnOk result (TakesCommand master.old master.new c.now) }
    ensures trees { LeavesTrees F.ForestView master.old master.new forests.old forests.new }
    ensures counted { CountsAtMost (F.interns forests.old) (F.interns forests.new) }
    ensures unchanged { OnErr result (master.new ≡ master.old) }
    ensures store_unchanged { OnErr result (forests.new ≡ forests.old) }
{
    master.tells_the_present();
    master.tells_each_version();
    let given = master.apply(alloc, forests, c);
    trees_stay(master.defs());
    given
}

// So many dropped packets, and one more where this was dropped.
#[inline(always)]
fn counted(dropped: u64, verdict: Verdict) -> u64
    requires room { dropped < 2 ^ 63 }
    ensures sum { result ≡ dropped + length (drops_of verdict 0) }
    ensures one { result ≤ dropped + 1 }
{
    match verdict {
        Verdict::Pass => dropped,
        Verdict::Drop(_) => dropped + 1,
    }
}
