//! Laws of the tables, in the words of the subject. Each is the contract of a function that does nothing.

ghost use Rattle.tcp_emulation.specs.Laws.{LeavesClosedByOpening, StaysClosedAsReceiver, EstablishedByAcknowledgement, NeverEstablishedBySending, IgnoresResetOutsideWindow, OverUntilOpening, OverAfterReceive, Closes, ends_after_close, ends_after_short_close, ends_after_simultaneous_close, ends_after_crossing_close};
ghost use Rattle.tcp_emulation.specs.declared.state.State.TheVariants.{Closed, TimeWait};

/// A CLOSED end is left only by its opening SYN: its first one, without ACK.
pub fn closed_until_opening()
    ensures sender { LeavesClosedByOpening }
    ensures receiver { StaysClosedAsReceiver }
{}

/// An end comes to ESTABLISHED only by a segment that acknowledges its SYN.
pub fn established_by_acknowledgement()
    ensures receiver { EstablishedByAcknowledgement }
    ensures sender { NeverEstablishedBySending }
{}

/// An RST outside the window changes nothing.
pub fn reset_outside_window_is_ignored()
    ensures { IgnoresResetOutsideWindow }
{}

/// A connection that is over stays over, unless an end that is CLOSED and never sent a SYN sends one
/// without ACK.
pub fn over_until_opening()
    ensures sender { OverUntilOpening }
    ensures receiver { OverAfterReceive }
{}

/// A normal close by either end ends the connection (RFC 9293, figure 12), with the peer's FIN in a
/// segment of its own or together with its ACK.
pub fn normal_close_ends_connection()
    ensures separate { Closes ends_after_close Closed }
    ensures joined { Closes ends_after_short_close Closed }
{}

/// A close by both ends at once ends the connection (RFC 9293, figure 13). Where the first FIN
/// arrives before the second is sent, but isn't acknowledged by it, the peer goes by LAST_ACK.
pub fn simultaneous_close_ends_connection()
    ensures at_once { Closes ends_after_simultaneous_close TimeWait }
    ensures crossing { Closes ends_after_crossing_close Closed }
{}
