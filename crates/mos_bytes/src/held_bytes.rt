//! Bytes that are held in an array.

ghost use Rattle.std.specs.Prelude.{◌≡◌, ◌+◌, ◌-◌, ◌≤◌, List, ℕ, [], ◌++◌, length, take, drop};

use crate::put_behind;
use std::marker::Model;

/// At most `ROOM` bytes, in an array of that length. It takes no memory.
#[derive(Drop)]
pub struct HeldBytes<const ROOM: usize> {
    bytes: [u8; ROOM],
    len: usize,
}

impl<const ROOM: usize> Model for HeldBytes<ROOM> {
    ghost Value = { List ℕ };

    ghost view = { λ h. take h.len h.bytes };

    ghost invariant = { λ h. h.len ≤ ROOM };
}

impl<const ROOM: usize> HeldBytes<ROOM> {
    /// No bytes.
    #[inline]
    pub fn new() -> Self
        ensures { result ≡ [] }
    {
        HeldBytes {
            bytes: [0; ROOM],
            len: 0,
        }
    }

    /// How many bytes it holds.
    #[inline]
    pub fn len(&self) -> usize
        ensures result { result ≡ length self.now }
        ensures bound { result ≤ ROOM }
    {
        self.len
    }

    /// The bytes that it holds.
    #[inline]
    pub fn as_slice(&self) -> &[u8]
        ensures bytes { result.now ≡ self.now }
        ensures most { length self.now ≤ ROOM }
    {
        &self.bytes[..self.len]
    }

    /// Those from this place on.
    #[inline]
    pub fn from(&self, place: usize) -> &[u8]
        requires { place ≤ length self.now }
        ensures { result.now ≡ drop place self.now }
    {
        &self.as_slice()[place..]
    }

    /// Holds these too, behind the others. There must be room for them.
    #[inline]
    pub fn put(&mut self, bytes: &[u8])
        requires { length bytes.now ≤ ROOM - length self.old }
        ensures bytes { self.new ≡ self.old ++ bytes.now }
        ensures len { length self.new ≡ length self.old + length bytes.now }
    {
        self.len = put_behind(&mut self.bytes, self.len, bytes);
    }

    /// Holds no bytes any more.
    #[inline]
    pub fn clear(&mut self)
        ensures { self.new ≡ [] }
    {
        self.len = 0;
    }
}
