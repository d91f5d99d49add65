//! Memory that is kept at hand for a thread.

use std::alloc::Global;

/// How many bytes are kept at hand.
const AT_HAND: usize = 1_048_576;

/// Takes a large block of memory and gives it back. The C library then has that much at hand for the thread, where it would
/// ask the system for every few thousand bytes of what the thread keeps. That memory is refused is no error.
pub fn keep_at_hand(alloc: Global) {
    if let Ok(mut block) = Vec::with_capacity(alloc, AT_HAND) {
        block.push_reserved(0u8);
    }
}
