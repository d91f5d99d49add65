//! Laws of the raises, in the words of the subject. Each is the contract of a function that does nothing.

ghost use Rattle.std.specs.Prelude.{ℕ, Bool};
ghost use Rattle.packet_views.specs.declared.packet.Head.{Head};
ghost use Rattle.tcp_emulation.specs.declared.segment.Side.{Side};
ghost use Rattle.flow_socket.specs.declared.answers.Sent.{Sent};
ghost use Rattle.flow_socket.specs.declared.answers.Got.{Got};
ghost use Rattle.builtin_events.specs.Laws.{RaisesAtSender, RaisesAtReceiver};

/// At the sender the events that the table has of packets there are raised in its order, each once at most, and each
/// exactly where its condition holds.
pub fn sender_raises_each_event_in_order()
    ensures { (h : Head) (from : Side) (nth : ℕ) (first : Bool) (s : Sent) → RaisesAtSender h from nth first s }
{}

/// At the receiver the events that the table has of packets there are raised in its order, each once at most, and each
/// exactly where its condition holds.
pub fn receiver_raises_each_event_in_order()
    ensures { (h : Head) (from : Side) (nth : ℕ) (g : Got) → RaisesAtReceiver h from nth g }
{}
