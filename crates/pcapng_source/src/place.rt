//! Where the next block begins, and how many blocks are allowed from there on.

ghost use Rattle.std.specs.Prelude.{◌≡◌, ◌+◌, ◌-◌, ◌*◌, ◌^◌, ◌<◌, ◌≤◌};

use std::marker::Model;

// How many blocks a file has at most.
const BLOCK_LIMIT: u32 = 4_194_304;

// A place between blocks. As a block has at most 2^24 bytes, no place is behind byte 2^46.
#[derive(Drop)]
pub(crate) struct Place {
    offset: u64,
    allowed: u32,
}

impl Model for Place {
    ghost use Rattle.pcapng_source.specs.Places.{PlaceState};
    ghost use Rattle.std.specs.Prelude.{◌+◌, ◌*◌, ◌^◌, ◌≤◌};

    ghost Value = { PlaceState };

    ghost view = { λ p. record { offset = p.offset; allowed = p.allowed } };

    ghost invariant = { λ p. p.offset + p.allowed * 16777216 ≤ 2 ^ 46 };
}

impl Place {
    // In front of a file.
    pub(crate) fn first() -> Self
        ensures { result ≡ record { offset = 0; allowed = 4194304 } }
    {
        Place {
            offset: 0,
            allowed: BLOCK_LIMIT,
        }
    }

    // How many bytes stand before it.
    pub(crate) fn offset(&self) -> u64
        ensures { result ≡ self.now.offset }
    {
        self.offset
    }

    // How many more blocks are allowed.
    pub(crate) fn allowed(&self) -> u32
        ensures { result ≡ self.now.allowed }
    {
        self.allowed
    }

    // Goes behind a block of so many bytes.
    pub(crate) fn pass(&mut self, total: u32)
        requires allowed { 0 < self.old.allowed }
        requires total { total ≤ 16777216 }
        ensures { self.new ≡ record { offset = self.old.offset + total; allowed = self.old.allowed - 1 } }
    {
        self.offset += u64::from(total);
        self.allowed -= 1;
    }
}
