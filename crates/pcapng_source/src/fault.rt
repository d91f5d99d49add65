//! Why a pcapng file is refused.

/// Why a block is refused, with the offset at which it begins in the file. Each refusal is made once the bytes are there
/// that it reads. In a block they come in this order: too many blocks; a magic number or a total length; the version; too
/// many interfaces; an interface that isn't there; the link type; the captured length; data past the block; the second
/// total length.
#[derive(Clone, Copy, Debug, PartialEq, Eq)]
pub enum NgFault {
    /// It stands behind 4,194,304 others.
    TooManyBlocks(u64),
    /// It has the form of no block: a byte-order magic that is neither; a total length that is no multiple of 4, too short
    /// for the kind of block or over 16,777,216; an interface that isn't there; data past the block; two total lengths that
    /// differ.
    BadBlock(u64),
    /// The major version of its section isn't 1.
    BadVersion(u64),
    /// It describes the 65th interface of its section.
    TooManyInterfaces(u64),
    /// It holds a packet of an interface that isn't Ethernet.
    BadLink(u64),
    /// It holds a packet of which more than 262,144 bytes were captured.
    TooLong(u64),
}
