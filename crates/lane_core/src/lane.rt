//! A lane: the records of its packets, and why it failed.

ghost use Rattle.std.specs.Prelude.{◌≡◌, ◌<◌, ◌≤◌, [], IfOk, OnOk, OnErr, Err, Some, None, true};
ghost use Rattle.std.specs.Option.{option_copied};
ghost use Rattle.shared_forest.specs.Store.{CountsAtMost};
ghost use Rattle.forest_versions.specs.State.{start};
ghost use Rattle.lane_core.specs.Lane.{ForEvents, HadFailed, IsHeavyAtEnd, IsHeavyBy, IsTreeFound};
ghost use Rattle.lane_core.specs.Packets.{AddsCounted, CostsToAdd, StaysUnder};
ghost use Rattle.lane_core.specs.Records.{open_at};
ghost use Rattle.lane_core.specs.Run.{ended_run, lane_run};
ghost use Rattle.lane_core.specs.Shown.{weight};
ghost use Rattle.lane_core.specs.Sight.{sight_of};

use crate::end::{Closed, KeptEnd, KeptRecords, LaneEnd};
use crate::errors::LaneError;
use crate::recorder::Recorder;
use crate::records::Records;
use crate::report::{Close, Reporter};
use crate::terms::PacketTerms;
use app_api::{App, Verdict, presets_of};
use flow_table::Key;
use flow_timers::Moment;
use forest_versions::{Command, Control};
use native_filters::NativeBook;
use pcap_source::Frame;
use shared_forest::{Forests, Tree};
use std::alloc::{AllocError, Global};

/// A lane: the records of its packets, each under the control commands that stand before its first packet.
#[derive(Drop)]
pub struct Lane<A, F: Forests> {
    pub(crate) app: A,
    /// Whether entries are kept.
    pub(crate) keep: bool,
    pub(crate) records: Records<F>,
    pub(crate) failed: Option<LaneError>,
}

impl<A: App + Drop, F: Forests + Drop> Lane<A, F> {
    /// A lane of no packet and no command, with an application's presets. Without `keep` it keeps no entries.
    pub fn new(alloc: Global, app: A, forests: F, keep: bool) -> Result<Lane<A, F>, AllocError>
        ensures stands { IfOk result (λ lane. ⟦<Lane<A, F> as Recorder>⟧.stands lane []) }
        ensures app { IfOk result (λ lane. ⟦<Lane<A, F> as Recorder>⟧.app lane ≡ A.meaning app) }
        ensures keeps { IfOk result (λ lane. ⟦<Lane<A, F> as Recorder>⟧.keeps lane ≡ keep) }
        ensures control { IfOk result (λ lane.
            ⟦<Lane<A, F> as Recorder>⟧.control lane ≡ start (A.meaning app).presets) }
        ensures given { IfOk result (λ lane. ⟦<Lane<A, F> as Recorder>⟧.given lane ≡ 0) }
        ensures last { IfOk result (λ lane. ⟦<Lane<A, F> as Recorder>⟧.last lane ≡ None) }
        ensures failed { IfOk result (λ lane. ⟦<Lane<A, F> as Recorder>⟧.failed lane ≡ None) }
        ensures interned { IfOk result (λ lane.
            CountsAtMost (F.interns forests) (⟦<Lane<A, F> as Recorder>⟧.interns lane)) }
    {
        let presets = presets_of(alloc, &app)?;
        let records = Records::new(alloc, forests, &presets)?;
        Ok(Lane {
            app,
            keep,
            records,
            failed: None,
        })
    }

    // Fails for good, and answers why. What was kept is asked for no more, so its memory goes back at once.
    fn fail(&mut self, alloc: Global, error: LaneError) -> LaneError
        ensures answer { result ≡ error }
        ensures lane { self.new ≡ record self.old { records = self.new.records; failed = Some error } }
        ensures records { StaysUnder self.old.records self.new.records }
    {
        self.records.clear(alloc);
        self.failed = Some(error);
        error
    }

    /// The store of its trees.
    pub fn forests(&self) -> &F
        ensures { F.interns result.now ≡ ⟦<Lane<A, F> as Recorder>⟧.interns self.now }
    {
        &self.records.forests
    }

    /// The tree by which the registrations of an open connection are called: that of its private list, which other
    /// connections may share. `None` exactly where no connection of the key is open. Of a lane that failed nothing is said.
    pub fn tree_of(&self, key: &Key) -> Option<&Tree>
        ensures tree { ⟦<Lane<A, F> as Recorder>⟧.failed self.now ≡ None
            → ForEvents (⟦<Lane<A, F> as Recorder>⟧.stands self.now) (λ events.
            IsTreeFound (⟦<Lane<A, F> as Recorder>⟧.control self.now).defs
            (open_at key.now (lane_run (⟦<Lane<A, F> as Recorder>⟧.app self.now) events)) (option_copied result)) }
    {
        let conn = self.records.connections.get(key)?;
        Some(self.records.forests.tree_of(&conn.flow.forest))
    }
}

impl<A: App + Drop, F: Forests + Drop> Recorder for Lane<A, F> {
    ghost use Rattle.lane_core.specs.Lane.{IsRun, newest_by};

    ghost stands = { λ lane. IsRun (A.meaning lane.app) lane.keep lane.records lane.failed };

    ghost app = { λ lane. A.meaning lane.app };

    ghost keeps = { λ lane. lane.keep };

    ghost control = { λ lane. lane.records.master.now };

    ghost given = { λ lane. lane.records.master.version };

    ghost last = { λ lane. newest_by lane.records.next };

    ghost failed = { λ lane. lane.failed };

    ghost interns = { λ lane. F.interns lane.records.forests };

    fn command(&mut self, alloc: Global, c: &Command) -> Result<(), LaneError> {
        if let Some(error) = self.failed {
            return Err(error);
        }
        match self.records.give(alloc, c) {
            Ok(()) => Ok(()),
            Err(_) => Err(self.fail(alloc, LaneError::NoMemory)),
        }
    }

    #[inline(always)]
    fn packet_at(
        &mut self,
        alloc: Global,
        number: u64,
        moment: Moment,
        bytes: &[u8],
        natives: &NativeBook,
    ) -> Result<Verdict, LaneError> {
        if let Some(error) = self.failed {
            return Err(error);
        }
        let terms = PacketTerms {
            alloc,
            app: &self.app,
            keep: self.keep,
            natives,
            number,
            moment,
        };
        let Ok(verdict) = self.records.take(&terms, bytes) else {
            return Err(self.fail(alloc, LaneError::NoMemory));
        };
        if self.records.is_too_heavy(self.keep) {
            return Err(self.fail(alloc, LaneError::Heavy));
        }
        Ok(verdict)
    }

    fn packet(
        &mut self,
        alloc: Global,
        number: u64,
        frame: &Frame,
        natives: &NativeBook,
    ) -> Result<Verdict, LaneError> {
        let moment = Moment {
            seconds: frame.seconds,
            fraction: frame.fraction,
        };
        self.packet_at(alloc, number, moment, frame.bytes.as_slice(), natives)
    }

    fn version(&self) -> u32 {
        self.records.master.version()
    }

    fn newest(&self) -> Option<u64> {
        self.records.next.checked_sub(1)
    }

    fn in_force(&self) -> &Control {
        self.records.master.control()
    }

    fn has_failed(&self) -> bool {
        self.failed.is_some()
    }

    fn finish(
        self,
        alloc: Global,
        greatest: Option<Moment>,
        natives: &NativeBook,
    ) -> Result<LaneEnd, LaneError> {
        let closed = self.close(alloc, greatest, natives)?;
        Ok(closed.end.shown(alloc, &closed.app)?)
    }
}

impl<A: App + Drop, F: Forests + Drop> Close for Lane<A, F> {
    type Application = A;

    fn close(
        self,
        alloc: Global,
        greatest: Option<Moment>,
        natives: &NativeBook,
    ) -> Result<Closed<A>, LaneError> {
        let Lane {
            app,
            keep,
            records,
            failed,
        } = self;
        if let Some(error) = failed {
            return Err(error);
        }
        let mut records = records;
        records.end_all(alloc, &app, keep, natives, greatest)?;
        if records.is_too_heavy(keep) {
            return Err(LaneError::Heavy);
        }
        let Records {
            list,
            ledger,
            dropped,
            ..
        } = records;
        let end = KeptEnd {
            records: KeptRecords { items: list },
            callbacks: ledger.counts.callbacks,
            weight: ledger.counts.weight,
            drops: dropped,
        };
        Ok(Closed { app, end })
    }
}

impl<A: App + Drop, F: Forests + Drop> Reporter for Lane<A, F> {
    fn finish_kept(
        self,
        alloc: Global,
        greatest: Option<Moment>,
        natives: &NativeBook,
    ) -> Result<KeptEnd, LaneError> {
        let closed = self.close(alloc, greatest, natives)?;
        Ok(closed.end)
    }
}
