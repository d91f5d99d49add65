//! Laws on the records of packets: what the definition of records says in other words.

ghost use Rattle.lane_core.specs.Once.{DropsAreVerdicts, PacketsStandOnce};
ghost use Rattle.lane_core.specs.Laws.{RecordsGrow, RecordsByKey, PresetsAreCalled, RecordsAreTidy, WeightNeverFalls, PacketIsAdded, CommandChangesNone, HeavyStays, OneEventMore, NewestIsTheLast, LaterCommandsChangeNone, LastPacketIsAdded};

/// Each packet that no open connection takes begins a record, and a record takes each later packet of its key while it is
/// open: the definition by one record at a time.
pub fn records_grow()
    ensures { RecordsGrow }
{}

/// The records of the packets of a set of keys are the records whose first packet has such a key. So the packets of a
/// connection can be followed apart from all others.
pub fn records_by_key()
    ensures { RecordsByKey }
{}

/// What the log application's presets see: each packet of a connection once at its sender and then once at its receiver,
/// and each packet of no connection once.
pub fn presets_are_called()
    ensures { PresetsAreCalled }
{}

/// The records of packets whose numbers rise are such as a report may have, where the application is a lawful one and
/// each registration is one of an event.
pub fn records_are_tidy()
    ensures { RecordsAreTidy }
{}

/// Callbacks are never taken back: one more packet never makes the records weigh less.
pub fn weight_never_falls()
    ensures { WeightNeverFalls }
{}

/// One packet more of a run is added to its records, under the commands that stand before it.
pub fn packet_is_added()
    ensures { PacketIsAdded }
{}

/// One command more of a run changes none of its records.
pub fn command_changes_none()
    ensures { CommandChangesNone }
{}

/// A run that weighs too much stays so, whatever comes.
pub fn heavy_stays()
    ensures { HeavyStays }
{}

/// One event more at the end of a run: its commands, and its packets with their versions.
pub fn one_event_more()
    ensures { OneEventMore }
{}

/// The newest number of a run is that of its last packet, and there is none exactly where the run has no packet.
pub fn newest_is_the_last()
    ensures { NewestIsTheLast }
{}

/// Commands behind those of a run change neither its records nor what becomes of one more packet.
pub fn later_commands_change_none()
    ensures { LaterCommandsChangeNone }
{}

/// One packet more behind others is added to their records.
pub fn last_packet_is_added()
    ensures { LastPacketIsAdded }
{}

/// The dropped packets of records are those whose verdict is a drop, each once and with its reason. So what a report says
/// was dropped is what a forwarded capture leaves out.
pub fn drops_are_verdicts()
    ensures { DropsAreVerdicts }
{}

/// Each packet stands in one record: it starts it, or the record takes it.
pub fn packets_stand_once()
    ensures { PacketsStandOnce }
{}
