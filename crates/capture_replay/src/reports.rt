//! Laws on the reports of runs. These functions do nothing: their contracts are the statements.

ghost use Rattle.capture_replay.specs.ReadBack.{ReportIsReadBack};

use lane_composition::packets::packets_of_a_capture_rise;
use lane_core::laws::records_are_tidy;
use report_text::laws::gained_is_read;

/// What a report run adds to its output where it ends well, read back, is the run's records and totals, unless memory is refused.
/// That the numbers and bytes of its report are in the ranges of their types is what each run promises.
pub fn a_report_is_read_back()
    ensures { ReportIsReadBack }
{
    gained_is_read();
    records_are_tidy();
    packets_of_a_capture_rise();
}
