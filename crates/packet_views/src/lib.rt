//! From the bytes of one Ethernet frame to the class of its packet, or to a view of its TCP segment over IPv4, read in place.
//! No call copies bytes or takes memory.
//!
//! Contract: a view is given exactly where the class is tcp, and its header fields, payload and window scale are those of the
//! definition.
//! Begin with `specs/Packet.antt`, then `view_of` in `src/classify.rt`, `src/view.rt` and `src/options.rt`. The TCP header is
//! said and read for both versions of IP, by the place where it begins and the place where its packet ends: `specs/Tcp.antt`,
//! and `Layout` in `src/layout.rt`.
//! Tests: `packet_tests` (frames).
#![tactic(auto)]

mod classify;
mod fields;
mod layout;
mod link;
mod options;
mod packet;
mod view;

pub use classify::{PROTOCOL_TCP, view_of};
pub use fields::{u16_at, u32_at};
pub use layout::Layout;
pub use link::packet_start;
pub use packet::{ACK, Class, FIN, Head, RST, SYN};
pub use view::{TcpView, View, window_scale};
