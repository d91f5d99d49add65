//! A lane that fails for want of memory at a packet.

use app_api::Verdict;
use flow_timers::Moment;
use forest_versions::{Command, Control};
use lane_core::{LaneEnd, LaneError, Recorder};
use native_filters::NativeBook;
use pcap_source::Frame;
use std::alloc::Global;

/// Is the inner lane up to the packet of a number. This packet it still takes, and has failed from then on.
#[derive(Drop)]
pub struct Failing<L: Recorder + Drop> {
    pub inner: L,
    pub at: u64,
    pub has_failed: bool,
}

impl<L: Recorder + Drop> Recorder for Failing<L> {
    ghost use Rattle.std.specs.Prelude.{Some, if◌then◌else◌};
    ghost use Rattle.lane_core.specs.declared.errors.LaneError.TheVariants.{NoMemory};

    ghost stands = { λ s events. L.stands s.inner events };

    ghost app = { λ s. L.app s.inner };

    ghost keeps = { λ s. L.keeps s.inner };

    ghost control = { λ s. L.control s.inner };

    ghost given = { λ s. L.given s.inner };

    ghost last = { λ s. L.last s.inner };

    ghost failed = { λ s. if s.has_failed then Some NoMemory else L.failed s.inner };

    ghost interns = { λ s. L.interns s.inner };

    fn command(&mut self, alloc: Global, c: &Command) -> Result<(), LaneError> {
        if self.has_failed {
            return Err(LaneError::NoMemory);
        }
        self.inner.command(alloc, c)
    }

    fn packet_at(
        &mut self,
        alloc: Global,
        number: u64,
        moment: Moment,
        bytes: &[u8],
        natives: &NativeBook,
    ) -> Result<Verdict, LaneError> {
        if self.has_failed {
            return Err(LaneError::NoMemory);
        }
        if number == self.at && !self.inner.has_failed() {
            let _taken = self.inner.packet_at(alloc, number, moment, bytes, natives);
            self.has_failed = true;
            return Err(LaneError::NoMemory);
        }
        self.inner.packet_at(alloc, number, moment, bytes, natives)
    }

    fn packet(
        &mut self,
        alloc: Global,
        number: u64,
        frame: &Frame,
        natives: &NativeBook,
    ) -> Result<Verdict, LaneError> {
        let moment = Moment {
            seconds: frame.seconds,
            fraction: frame.fraction,
        };
        self.packet_at(alloc, number, moment, frame.bytes.as_slice(), natives)
    }

    fn version(&self) -> u32 {
        self.inner.version()
    }

    fn newest(&self) -> Option<u64> {
        self.inner.newest()
    }

    fn in_force(&self) -> &Control {
        self.inner.in_force()
    }

    fn has_failed(&self) -> bool {
        self.has_failed || self.inner.has_failed()
    }

    fn finish(
        self,
        alloc: Global,
        greatest: Option<Moment>,
        natives: &NativeBook,
    ) -> Result<LaneEnd, LaneError> {
        if self.has_failed {
            return Err(LaneError::NoMemory);
        }
        let Failing { inner, .. } = self;
        inner.finish(alloc, greatest, natives)
    }
}
