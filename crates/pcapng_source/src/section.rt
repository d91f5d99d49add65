//! A section: the order of its bytes, and its interfaces.

ghost use Rattle.std.specs.Prelude.{◌≡◌, ◌<◌, ◌≤◌, [], ◌∷◌, ◌++◌, length, nat_le, Option};
ghost use Rattle.std.specs.List.{slice_get};
ghost use Rattle.pcapng_source.specs.Fields.{resolution_told, snap_told};
ghost use Rattle.pcapng_source.specs.Packets.{within_snap};

use crate::open::MICROSECONDS;
use arrayvec::ArrayVec;
use pcap_source::Order;
use std::marker::Model;

// How many interfaces a section has at most.
const INTERFACE_LIMIT: usize = 64;

/// A resolution of time: how many of its units a second has.
#[derive(Clone, Copy, Debug)]
pub enum Resolution {
    /// Ten to so much.
    PowerOfTen(u8),
    /// Two to so much.
    PowerOfTwo(u8),
}

// The byte of a resolution has this bit set where it tells a power of two.
const POWER_OF_TWO: u8 = 128;

impl Resolution {
    // The resolution that a byte tells.
    pub(crate) fn told(byte: u8) -> Resolution
        ensures { result ≡ resolution_told byte }
    {
        if byte < POWER_OF_TWO {
            Resolution::PowerOfTen(byte)
        } else {
            Resolution::PowerOfTwo(byte - POWER_OF_TWO)
        }
    }
}

impl Default for Resolution {
    fn default() -> Self {
        Resolution::told(MICROSECONDS)
    }
}

/// An interface on which packets were captured.
#[derive(Clone, Copy, Debug, Default)]
pub struct Interface {
    /// Its link type.
    pub link: u16,
    /// How many bytes of a packet were captured at most, where there is a limit.
    pub snap: Option<u32>,
    /// Its resolution of time.
    pub resolution: Resolution,
}

// The limit that a snap length tells: 0 is none.
pub(crate) fn snap_told(length: u32) -> Option<u32>
    ensures { result ≡ snap_told length }
{
    if length == 0 { None } else { Some(length) }
}

impl Interface {
    // How many bytes of a packet of this length were captured.
    pub(crate) fn captured(&self, original: u32) -> u32
        ensures { result ≡ within_snap self.now.snap original }
    {
        match self.snap {
            Some(snap) => original.min(snap),
            None => original,
        }
    }
}

/// A section, as far as its interfaces were described.
#[derive(Drop)]
pub(crate) struct Section {
    order: Order,
    interfaces: ArrayVec<Interface, INTERFACE_LIMIT>,
}

impl Model for Section {
    ghost use Rattle.pcapng_source.specs.Fields.{SectionState};
    ghost use Rattle.std.specs.Prelude.{◌≤◌, length};

    ghost Value = { SectionState };

    ghost view = { λ s. record { order = s.order; interfaces = s.interfaces.items } };

    ghost invariant = { λ s. length s.interfaces.items ≤ 64 };
}

impl Section {
    ghost use Rattle.pcapng_source.specs.Fields.{with_interface, with_resolution};

    // A section without interfaces.
    pub(crate) fn new(order: Order) -> Self
        ensures { result ≡ record { order = order; interfaces = [] } }
    {
        Section {
            order,
            interfaces: ArrayVec::new(),
        }
    }

    pub(crate) fn order(&self) -> Order
        ensures { result ≡ self.now.order }
    {
        self.order
    }

    // Whether it has as many interfaces as it may have.
    pub(crate) fn is_full(&self) -> bool
        ensures { result ≡ nat_le 64 (length self.now.interfaces) }
    {
        self.interfaces.len() >= INTERFACE_LIMIT
    }

    // The interface of this number, if it is there.
    pub(crate) fn interface(&self, number: u32) -> Option<Interface>
        ensures { result ≡ slice_get self.now.interfaces number }
    {
        self.interfaces.as_slice().get(number as usize).copied()
    }

    // Sets the resolution of the interface that was added last to the one that this byte tells.
    pub(crate) fn resolve(&mut self, byte: u8)
        ensures { self.new ≡ with_resolution self.old byte }
    {
        if let Some(last) = self.interfaces.pop() {
            let resolution = Resolution::told(byte);
            self.interfaces.push(Interface { resolution, ..last });
        }
    }

    // Adds an interface.
    pub(crate) fn add(&mut self, interface: Interface)
        requires { length self.old.interfaces < 64 }
        ensures { self.new ≡ with_interface self.old interface }
    {
        self.interfaces.push(interface);
    }
}
