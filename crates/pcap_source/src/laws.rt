//! Laws of captures, in the words of the subject. Each is the contract of a function that does nothing.

ghost use Rattle.std.specs.Prelude.{ℕ, List};
ghost use Rattle.pcap_source.specs.Capture.{frames_from};
ghost use Rattle.pcap_source.specs.Laws.{IsLongestFront, SomeRecordsAreACapture};
ghost use Rattle.pcap_source.specs.declared.order.Order.{Order};

/// The bytes behind a global header are the longest list of whole records, as they were written, and a rest.
/// The rest alone says how the capture ends.
pub fn records_are_the_longest_front()
    ensures { (order : Order) (n offset : ℕ) (bytes : List ℕ)
        → IsLongestFront order n offset bytes (frames_from order n offset bytes) }
{}

/// The header of a capture and some of its records, in their order, are a capture: read again it gives exactly these records,
/// and ends without a tail.
pub fn some_records_are_a_capture()
    ensures { SomeRecordsAreACapture }
{}
