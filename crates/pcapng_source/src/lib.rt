//! A source over a source: of a file that begins as pcapng, `AnySource` gives the classic capture with the same packets, and
//! any other file as it is. A run reads every capture through it. It takes no memory.
//!
//! The profile is a small one, of this project: section headers, interfaces, enhanced and simple packet blocks, Ethernet alone.
//! The body of every other block is skipped unread.
//! Contract: what it gives are the bytes of the definition (`any`), in every cut of reads, and the refusal that it tells is the
//! definition's.
//! Begin with `specs/Blocks.antt` and `specs/Refusals.antt`, then `specs/Fields.antt` and `specs/Packets.antt`; in the code
//! with `src/any_source.rt` and `src/reader.rt`.
//! Tests: `text_tests` (pcapng, pcapng_refusals).
#![tactic(auto)]

mod any_source;
mod border;
mod fault;
mod held;
mod judge;
mod kind;
mod laws;
mod open;
mod options;
mod packet;
mod place;
mod reader;
mod section;
mod take;
mod time;
mod turns;

pub use any_source::AnySource;
pub use fault::NgFault;
pub use laws::{other_files_are_given_as_they_are, refused_files_begin_with_a_header};
