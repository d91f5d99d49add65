//! Laws on what becomes of the packets of a run. These functions do nothing: their contracts are the statements.

ghost use Rattle.capture_replay.specs.Passed.{DropLinesAreVerdicts, ForwardedIsACapture, PacketsStandInOneRecord};

use lane_core::laws::{drops_are_verdicts, packets_stand_once};
use pcap_source::some_records_are_a_capture;

/// The drop lines of a report are the packets that a forwarded capture leaves out, each once and with the reason of its verdict.
pub fn drop_lines_are_verdicts()
    ensures { DropLinesAreVerdicts }
{
    drops_are_verdicts();
}

/// What is forwarded of a capture is a capture: read again it gives the packets that pass, as they were captured, and no tail.
pub fn what_is_forwarded_is_a_capture()
    ensures { ForwardedIsACapture }
{
    some_records_are_a_capture();
}

/// Each packet of a capture stands in one record of its run.
pub fn each_packet_stands_in_one_record()
    ensures { PacketsStandInOneRecord }
{
    packets_stand_once();
}
