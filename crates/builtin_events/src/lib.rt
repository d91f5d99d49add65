//! From one phase of the emulation to the list of its raises: which built-in events a packet raises, or the silence after it,
//! in which order and with which facts. No call takes memory.
//!
//! Contract: the calls of `src/phases.rt` give exactly the list of the definition, at most eight raises; those of
//! `src/listening.rt` tell whether any raise of a packet's phase is heard, before one is made.
//! Begin with `specs/Raises.antt` and `specs/Facts.antt`, then `src/phases.rt`; `specs/Laws.antt` and `src/laws.rt` say the
//! same in plain words.
//! Tests: `packet_tests` (events).
#![tactic(auto)]

mod facts;
mod laws;
mod listening;
mod phases;
mod raise;
mod raised;
mod raising;
mod source;

pub use laws::{receiver_raises_each_event_in_order, sender_raises_each_event_in_order};
pub use listening::{is_heard_at_receiver, is_heard_at_sender};
pub use phases::{
    is_alone_at_sender, orphan_raise, phase_r, phase_s, raised_at_receiver, raised_at_sender,
    raised_by_orphan, raised_by_silence,
};
pub use raise::{Raise, RaiseList};
pub use raised::{EventList, Raised};
pub use raising::{Raising, raising_at_receiver, raising_at_sender};
pub use source::FactSource;
