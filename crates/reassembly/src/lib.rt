//! One direction of a TCP connection as its receiver accepts it: which bytes of a segment are new, old or outside the window,
//! which are kept, and where the FIN stands (RFC 9293, section 3.10.7.4).
//!
//! Contract: a `Stream` stands for the receiver of the definitions, which forgets nothing. What that receiver has offered the
//! caller keeps, and tells `Stream::place` how wide the window is by it (`wide`).
//! Begin with `specs/Receiver.antt`, `specs/Offer.antt` and `specs/Segment.antt`, then `Stream` in `src/stream.rt`. Behind it
//! stand the buffer in its two forms (`src/buffer.rt`: `src/holed.rt`, and `src/window.rt` over pages and runs) and the copying
//! (`src/laying.rt`). `PlainReceiver` is the slow receiver that tests compare with.
//! Tests: `packet_tests` (streams).
#![tactic(auto)]

mod answers;
mod buffer;
mod fin;
mod holed;
mod laying;
mod offer;
mod pages;
mod pieces;
mod plain;
mod runs;
mod start;
mod stream;
mod waiting;
mod window;

pub use answers::{FinNote, Placed, Policy};
pub use offer::{greatest_offer, wide};
pub use pieces::Pieces;
pub use plain::PlainReceiver;
pub use stream::Stream;
