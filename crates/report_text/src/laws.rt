//! Laws on reports: what reading and writing are to each other. Each is the contract of a function that does nothing.

ghost use Rattle.report_text.specs.ReadLaws.{WrittenIsRead, GainedIsRead, ReadIsWritten, OneOffset};

/// Reading what was written of tidy records and totals gives these back, unless memory is refused.
pub fn written_is_read()
    ensures { WrittenIsRead }
{}

/// Reading what a sink gained by such a report, written to its end, gives the records and the totals back, unless memory is
/// refused. So a report that a run wrote without an error reads as what it is of.
pub fn gained_is_read()
    ensures { GainedIsRead }
{}

/// What is read, written again, is the text.
pub fn read_is_written()
    ensures { ReadIsWritten }
{}

/// A text stops being a report at one place alone: two offsets that are told of it are equal.
pub fn one_offset()
    ensures { OneOffset }
{}
