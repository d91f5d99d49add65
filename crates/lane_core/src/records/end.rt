//! The end of a run: open connections that were idle for too long by then.

ghost use Rattle.std.specs.Prelude.{◌≡◌, ◌<◌, ◌&&◌, nat_lt, vec_len, OnOk, Err, Some, false};
ghost use Rattle.lane_core.specs.declared.errors.LaneError.TheVariants.{Heavy};
ghost use Rattle.lane_core.specs.Steps.{taking};
ghost use Rattle.lane_core.specs.Packets.{Leaves};
ghost use Rattle.lane_core.specs.Closing.{EndsOne, EndsAll, IsTooHeavy};

use crate::errors::LaneError;
use crate::records::Records;
use crate::records::idle::was_idle;
use crate::terms::PacketTerms;
use app_api::App;
use flow_timers::Moment;
use ip6_views::key_between;
use native_filters::NativeBook;
use report_text::RecordKind;
use shared_forest::Forests;
use std::alloc::{AllocError, Global};

impl<F: Forests + Drop> Records<F> {
    // Ends the connection of a record, where it is open and was idle for too long.
    fn end_one<A: App>(
        &mut self,
        terms: &PacketTerms<'_, A>,
        place: usize,
    ) -> Result<(), AllocError>
        requires within { place < vec_len self.old.list }
        ensures ends { OnOk result (EndsOne (taking A.meaning terms.now) self.old self.new place) }
        ensures left { Leaves self.old self.new }
    {
        let RecordKind::Conn { client, server } = self.list[place].kind else {
            return Ok(());
        };
        let key = key_between(client, server);
        let Some(conn) = self.connections.get(&key) else {
            return Ok(());
        };
        if conn.place != place {
            return Ok(());
        }
        if !was_idle(&self.master, conn, terms.moment) {
            return Ok(());
        }
        self.end_idle(terms, &key)
    }

    // Ends each open connection that was idle for too long at a moment. The entries that are kept are weighed after each,
    // since so many connections may end at once.
    fn end_each<A: App>(&mut self, terms: &PacketTerms<'_, A>) -> Result<(), LaneError>
        ensures ends { OnOk result
            (EndsAll (A.meaning terms.now.app.now) terms.now.keep self.old self.new (Some terms.now.moment)) }
        ensures heavy { result ≡ Err Heavy
            → IsTooHeavy (A.meaning terms.now.app.now) terms.now.keep self.old (Some terms.now.moment) }
        ensures dropped { self.new.dropped ≡ self.old.dropped }
    {
        for place in 0..self.list.len() {
            self.end_one(terms, place)?;
            if self.is_too_heavy(terms.keep) {
                return Err(LaneError::Heavy);
            }
        }
        Ok(())
    }

    /// Ends each open connection that was idle for too long at the greatest moment, if there is one. An error is want of
    /// memory, or that the entries that are kept weigh too much then.
    pub(crate) fn end_all<A: App>(
        &mut self,
        alloc: Global,
        app: &A,
        keep: bool,
        natives: &NativeBook,
        greatest: Option<Moment>,
    ) -> Result<(), LaneError>
        ensures ends { OnOk result (EndsAll (A.meaning app.now) keep self.old self.new greatest) }
        ensures heavy { result ≡ Err Heavy → IsTooHeavy (A.meaning app.now) keep self.old greatest }
        ensures dropped { self.new.dropped ≡ self.old.dropped }
    {
        let Some(moment) = greatest else {
            return Ok(());
        };
        if !self.master.is_timed() {
            return Ok(());
        }
        let terms = PacketTerms {
            alloc,
            app,
            keep,
            natives,
            number: self.next,
            moment,
        };
        self.end_each(&terms)
    }
}
