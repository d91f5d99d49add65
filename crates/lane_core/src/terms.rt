//! What a packet comes under.

ghost use Rattle.std.specs.Prelude.{◌≡◌};

use flow_timers::Moment;
use native_filters::NativeBook;
use std::alloc::Global;

/// What a packet comes under: the application, whether entries are kept, its number and its time.
#[derive(Drop)]
pub(crate) struct PacketTerms<'a, A> {
    pub(crate) alloc: Global,
    pub(crate) app: &'a A,
    pub(crate) keep: bool,
    pub(crate) natives: &'a NativeBook,
    pub(crate) number: u64,
    pub(crate) moment: Moment,
}

// What the callbacks of a packet run under, where a version is in force. It is a macro, so that proofs see its parts.
macro_rules! terms_under {
    ($terms:expr, $master:expr, $version:expr) => {
        Terms {
            alloc: $terms.alloc,
            app: $terms.app,
            in_force: InForce {
                master: $master,
                version: $version,
            },
            natives: $terms.natives,
            keep: $terms.keep,
        }
    };
}

pub(crate) use terms_under;
