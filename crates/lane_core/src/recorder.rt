//! What a lane promises.

ghost use Rattle.std.specs.Prelude.{◌≡◌, ◌≢◌, ◌+◌, ◌<◌, ◌↔◌, [], OnOk, OnErr, IfOk, IfErr, IsTrue, Err, Some, None};
ghost use Rattle.forest_versions.specs.Lawful.{is_lawful};
ghost use Rattle.forest_versions.specs.State.{after};
ghost use Rattle.shared_forest.specs.Store.{CountsAtMost};
ghost use Rattle.lane_core.specs.Sight.{arrival_at, arrival_of};
ghost use Rattle.lane_core.specs.Run.{Gave, ended_run, newest_of, packets_of};
ghost use Rattle.lane_core.specs.Lane.{ForEvents, GoesOn, HadFailed, IsEnd, IsHeavyBy, IsAfter, KeepsTooMuch, KeepsWithin, TakesPacket};

use crate::end::LaneEnd;
use crate::errors::LaneError;
use app_api::Verdict;
use flow_timers::Moment;
use forest_versions::{Command, Control};
use native_filters::NativeBook;
use pcap_source::Frame;
use std::alloc::Global;

/// Keeps the records of packets, each under the control commands that stand before its first packet.
///
/// It stands for a list of packets and commands. Whatever list that is before a call, it is that list with one event more
/// after it. The first error is for good: from then on the calls answer it and change nothing.
pub trait Recorder {
    ghost use Rattle.std.specs.Prelude.{ℕ, Bool, List, Option};
    ghost use Rattle.app_api.specs.App.{Meaning};
    ghost use Rattle.forest_versions.specs.State.{ControlState};
    ghost use Rattle.lane_core.specs.declared.errors.LaneError.{LaneError as Error};
    ghost use Rattle.lane_core.specs.Run.{LaneEvent};

    /// The packets and commands that it stands for.
    ghost stands: { Self → List LaneEvent → Type 0 };

    /// What its application answers.
    ghost app: { Self → Meaning };

    /// Whether it keeps entries.
    ghost keeps: { Self → Bool };

    /// What is in force now, for a record that begins.
    ghost control: { Self → ControlState };

    /// The commands so far.
    ghost given: { Self → ℕ };

    /// The number of its last packet.
    ghost last: { Self → Option ℕ };

    /// Why it failed.
    ghost failed: { Self → Option Error };

    /// How often its store interned so far, where the store tells it.
    ghost interns: { Self → Option ℕ };

    /// One more command, which may be given now. Records that begin later live under it.
    ///
    /// An error is want of memory, or that for which the lane failed before. What is in force, the commands so far and the
    /// store's interns are then as before.
    fn command(&mut self, alloc: Global, c: &Command) -> Result<(), LaneError>
        requires lawful { IsTrue (is_lawful (control self.old) c.now) }
        requires few { given self.old < 4096 }
        ensures stands { GoesOn failed stands self.old self.new (Gave c.now) }
        ensures failed_before { HadFailed (failed self.old) (λ e. (result ≡ Err e) × (self.new ≡ self.old)) }
        ensures ok { OnOk result (failed self.new ≡ None) }
        ensures fails { IfErr result (λ e. failed self.new ≡ Some e) }
        ensures no_memory { failed self.old ≡ None → IfErr result (λ e. e ≡ Error.NoMemory) }
        ensures control { OnOk result (control self.new ≡ after (control self.old) c.now) }
        ensures version { OnOk result (given self.new ≡ given self.old + 1) }
        ensures control_stays { OnErr result (control self.new ≡ control self.old) }
        ensures version_stays { OnErr result (given self.new ≡ given self.old) }
        ensures newest { last self.new ≡ last self.old }
        ensures app { app self.new ≡ app self.old }
        ensures keeps { keeps self.new ≡ keeps self.old }
        ensures interned { CountsAtMost (interns self.old) (interns self.new) }
        ensures interns_stay { OnErr result (interns self.new ≡ interns self.old) };

    /// One more packet, of a number above all before, by its time and its captured bytes. Answers what becomes of it. Where the
    /// open connection of its key was silent for longer than the limit that is in force for it, that has ended before, with
    /// its callbacks for the event `timer`. No packet of another key ends it, since moments needn't rise.
    ///
    /// An error is want of memory; that the lane keeps entries and its callbacks weigh more than 134,217,728 with this
    /// packet; or that for which the lane failed before. Whatever is answered, the store interned at most once for each change
    /// that the packet makes of a connection's private list.
    fn packet_at(
        &mut self,
        alloc: Global,
        number: u64,
        moment: Moment,
        bytes: &[u8],
        natives: &NativeBook,
    ) -> Result<Verdict, LaneError>
        requires rising { IsAfter (last self.old) number }
        requires bound { number < 1048576 }
        ensures { TakesPacket stands app keeps control given last failed interns
            self.old self.new (arrival_at number moment bytes.now) result };

    /// One more packet, as `packet_at` takes it: that of a captured record.
    fn packet(
        &mut self,
        alloc: Global,
        number: u64,
        frame: &Frame,
        natives: &NativeBook,
    ) -> Result<Verdict, LaneError>
        requires rising { IsAfter (last self.old) number }
        requires bound { number < 1048576 }
        ensures { TakesPacket stands app keeps control given last failed interns
            self.old self.new (arrival_of number frame.now) result };

    /// The commands so far.
    fn version(&self) -> u32
        ensures { result ≡ given self.now };

    /// The number of the last packet of the list for which it stands, that at which it failed included; `None` exactly where
    /// that list has no packet.
    fn newest(&self) -> Option<u64>
        ensures last { result ≡ last self.now }
        ensures of_list { ForEvents (stands self.now) (λ events. result ≡ newest_of events) }
        ensures none { ForEvents (stands self.now) (λ events. (result ≡ None) ↔ (packets_of events ≡ [])) };

    /// What is in force now, for a record that begins.
    fn in_force(&self) -> &Control
        ensures { result.now ≡ control self.now };

    /// Whether it failed.
    fn has_failed(&self) -> bool
        ensures { IsTrue result ↔ (failed self.now ≢ None) };

    /// The records, their versions, and what is counted over them. `greatest` is the greatest moment of all packets of the
    /// capture, also of those that other lanes took; `None` where there is no packet. A connection that was silent for too
    /// long by then has ended, with its callbacks for the event `timer`.
    ///
    /// An error is want of memory; that the lane keeps entries and its callbacks, with those of these ends, weigh more than
    /// 134,217,728; or that for which the lane failed before.
    fn finish(
        self,
        alloc: Global,
        greatest: Option<Moment>,
        natives: &NativeBook,
    ) -> Result<LaneEnd, LaneError>
        ensures failed { HadFailed (failed self) (λ e. result ≡ Err e) }
        ensures ended { failed self ≡ None → IfOk result (λ end. ForEvents (stands self) (λ events.
            IsEnd (keeps self) (app self) (ended_run (app self) events greatest)
            end.records end.versions end.callbacks end.drops)) }
        ensures light { OnOk result (KeepsWithin keeps app stands self (IsHeavyBy greatest)) }
        ensures heavy { failed self ≡ None → result ≡ Err Error.Heavy
            → KeepsTooMuch keeps app stands self (IsHeavyBy greatest) };
}
