//! Laws of the definitions, in the words of the subject. Each is the contract of a function that does nothing.

ghost use Rattle.flow_socket.specs.Laws.{PeekReadsUpToNext, MarkStaysBelowNext, PositionIsNearNext, PositionIsTheOnlyOne};

/// A peek reads every byte from its place up to `next`, or as many as it asks for, and the mark
/// never passes `next`.
pub fn peek_reads_up_to_next()
    ensures all { PeekReadsUpToNext }
    ensures mark { MarkStaysBelowNext }
{}

/// A sequence number has exactly one position: the whole number that is congruent to it, from 2^31 below
/// `next` to less than 2^31 above it (RFC 9293, section 3.4).
pub fn sequence_number_has_one_position()
    ensures near { PositionIsNearNext }
    ensures only { PositionIsTheOnlyOne }
{}
