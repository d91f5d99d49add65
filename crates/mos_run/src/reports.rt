//! A law on the reports of runs. The function does nothing: its contract is the statement.

ghost use Rattle.mos_run.specs.ReadBack.{ReportOfRunIsReadBack};

use capture_replay::reports::a_report_is_read_back;

/// What a run adds to its output that is asked for a report and ends with status 0, read back, is its records and totals, unless
/// memory is refused: those of the capture that the file gives, under the versions that the run answers.
pub fn a_report_of_a_run_is_read_back()
    ensures { ReportOfRunIsReadBack }
{
    a_report_is_read_back();
}
