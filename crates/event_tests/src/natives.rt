//! Walks and filters where the native filters are the plain functions.

use event_trees::{Defs, Walk};
use filter_lang::{Expr, eval};
use native_filters::{
    Facts, Native, NativeBook, has_differing_bytes, has_system_port, is_ending, is_keep_alive,
    is_opening, is_private_traffic,
};

/// The plain functions as native filters.
pub fn natives() -> NativeBook {
    NativeBook::new(
        Native::new(0, is_opening),
        Native::new(1, has_system_port),
        Native::new(2, is_private_traffic),
        Native::new(3, is_keep_alive),
        Native::new(4, is_ending),
        Native::new(5, has_differing_bytes),
    )
}

/// Whether a filter is true of the facts.
pub fn is_true(filter: &Expr, facts: &Facts) -> bool {
    eval(filter, facts, &natives())
}

/// The number of the next registration that fires.
pub fn next_of(walk: &mut Walk, defs: &Defs) -> Option<u8> {
    walk.next(defs, &natives())
}
