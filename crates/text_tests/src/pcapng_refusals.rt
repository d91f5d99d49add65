//! Blocks of the pcapng form that are refused, and what stands before them.

use crate::pcapng::Part::{self, Four, Two};
use crate::pcapng::{
    HEADER, INTERFACE, MAGIC, PACKET, RECORD, SECTION, SECTION_TYPE, file, gives, joined, put,
};
use pcapng_source::NgFault;
use std::alloc::{AllocError, Global};
use std::test::Fail;

// A refusal so many bytes further on, of those that one block alone brings about.
fn moved(fault: NgFault, by: u64) -> NgFault {
    match fault {
        NgFault::BadBlock(offset) => NgFault::BadBlock(offset.wrapping_add(by)),
        NgFault::BadVersion(offset) => NgFault::BadVersion(offset.wrapping_add(by)),
        NgFault::BadLink(offset) => NgFault::BadLink(offset.wrapping_add(by)),
        NgFault::TooLong(offset) => NgFault::TooLong(offset.wrapping_add(by)),
        others => others,
    }
}

// Blocks behind a section header and an interface. The last one is refused at its last byte, and no earlier; the offset is
// that behind the first two.
const REFUSED: &[(&str, &[Part], NgFault)] = &[
    (
        "a total length that is no multiple of 4",
        &[Four(5), Four(13)],
        NgFault::BadBlock(0),
    ),
    (
        "a total length of 8",
        &[Four(5), Four(8)],
        NgFault::BadBlock(0),
    ),
    (
        "a total length of 2^24 and 4",
        &[Four(5), Four(16_777_220)],
        NgFault::BadBlock(0),
    ),
    (
        "an obsolete packet of 8 bytes",
        &[Four(2), Four(8)],
        NgFault::BadBlock(0),
    ),
    (
        "a section of 24 bytes",
        &[SECTION_TYPE, Four(24), MAGIC],
        NgFault::BadBlock(0),
    ),
    (
        "a magic number that is none",
        &[SECTION_TYPE, Four(28), Four(0x1a2b_3c4e)],
        NgFault::BadBlock(0),
    ),
    (
        "version 2",
        &[SECTION_TYPE, Four(28), MAGIC, Two(2)],
        NgFault::BadVersion(0),
    ),
    (
        "an interface of 16 bytes",
        &[Four(1), Four(16)],
        NgFault::BadBlock(0),
    ),
    (
        "a simple packet of 12 bytes",
        &[Four(3), Four(12)],
        NgFault::BadBlock(0),
    ),
    (
        "an enhanced packet of 28 bytes",
        &[Four(6), Four(28)],
        NgFault::BadBlock(0),
    ),
    (
        "an interface that isn't there",
        &[Four(6), Four(32), Four(1)],
        NgFault::BadBlock(0),
    ),
    (
        "no interface",
        &[
            SECTION_TYPE,
            Four(28),
            MAGIC,
            Two(1),
            Two(0),
            Four(0),
            Four(0),
            Four(28),
            Four(3),
            Four(16),
        ],
        NgFault::BadBlock(28),
    ),
    (
        "a link type of 113",
        &[
            Four(1),
            Four(20),
            Two(113),
            Two(0),
            Four(0),
            Four(20),
            Four(6),
            Four(32),
            Four(1),
        ],
        NgFault::BadLink(20),
    ),
    (
        "262,145 captured bytes",
        &[Four(6), Four(32), Four(0), Four(0), Four(0), Four(262_145)],
        NgFault::TooLong(0),
    ),
    (
        "a simple packet of 262,145 bytes",
        &[Four(3), Four(16), Four(262_145)],
        NgFault::TooLong(0),
    ),
    (
        "data past the block",
        &[Four(6), Four(36), Four(0), Four(0), Four(0), Four(5)],
        NgFault::BadBlock(0),
    ),
    (
        "simple data past the block",
        &[Four(3), Four(20), Four(5)],
        NgFault::BadBlock(0),
    ),
    (
        "two total lengths",
        &[Four(5), Four(16), Four(0), Four(12)],
        NgFault::BadBlock(0),
    ),
];

// Whether a block is refused behind these blocks, which give these bytes, and not yet one byte before its end.
fn is_refused(
    alloc: Global,
    is_big: bool,
    before: &[&[Part]],
    block: &[Part],
    want: &[u8],
    fault: NgFault,
) -> Result<bool, AllocError> {
    let mut bytes = file(alloc, is_big, before)?;
    let fault = moved(fault, bytes.len() as u64);
    put(&mut bytes, is_big, block)?;
    let short = bytes.len().saturating_sub(1);
    Ok(
        gives(alloc, &bytes, want, Some(fault))?
            && gives(alloc, bytes.get(..short).unwrap_or(&[]), want, None)?,
    )
}

fn is_refused_anywhere(
    alloc: Global,
    is_big: bool,
    block: &[Part],
    fault: NgFault,
) -> Result<bool, AllocError> {
    let one = joined(alloc, &[HEADER, RECORD])?;
    Ok(
        is_refused(alloc, is_big, &[SECTION, INTERFACE], block, HEADER, fault)?
            && is_refused(
                alloc,
                is_big,
                &[SECTION, INTERFACE, PACKET],
                block,
                &one,
                fault,
            )?,
    )
}

#[test]
fn each_refusal_where_its_bytes_are_there(rt: HostRuntime) -> Result<(), Fail> {
    for &(name, block, fault) in REFUSED {
        for is_big in [true, false] {
            assert!(rt;
                is_refused_anywhere(rt.alloc(), is_big, block, fault)?,
                "{name}"
            );
        }
    }
    Ok(())
}

// How many interfaces a section has, what it gives, and why it is refused. A packet of the last one follows.
const INTERFACES: &[(usize, &[&[u8]], Option<NgFault>)] = &[
    (64, &[HEADER, RECORD], None),
    (65, &[HEADER], Some(NgFault::TooManyInterfaces(1308))),
];

fn put_interfaces(bytes: &mut Vec<u8>, count: usize) -> Result<(), AllocError> {
    put(bytes, false, SECTION)?;
    for _ in 0..count {
        put(bytes, false, INTERFACE)?;
    }
    put(bytes, false, PACKET)
}

fn has_interfaces(
    alloc: Global,
    count: usize,
    given: &[&[u8]],
    fault: Option<NgFault>,
) -> Result<bool, AllocError> {
    let mut bytes = Vec::new(alloc);
    put_interfaces(&mut bytes, count)?;
    gives(alloc, &bytes, &joined(alloc, given)?, fault)
}

#[test]
fn a_section_has_64_interfaces(rt: HostRuntime) -> Result<(), Fail> {
    for &(count, given, fault) in INTERFACES {
        assert!(rt; has_interfaces(rt.alloc(), count, given, fault)?);
    }
    Ok(())
}
