//! A sink into memory, for tests.

ghost use Rattle.std.specs.Prelude.{◌≡◌, ◌+◌, ◌-◌, ◌/◌, ◌<◌, ◌≤◌, ◌↔◌, ◌⊎◌, ◌++◌, [], ℕ, List, length, take, min, Some, IsOk, IsErr, OnErr, Contains};
ghost use Rattle.std.specs.Io.KnownBytes.{Keeps};
ghost use Rattle.mos_bytes.specs.Causes.{HasCause};
ghost use Rattle.mos_bytes.specs.Memory.{CountsCall, SinkLasting, SinkState};
ghost use Rattle.mos_bytes.specs.Writes.{WriteAdds};

use crate::{Failed, Sink, put_behind};
use std::marker::Model;

/// A sink that writes over a room of fixed length, and fails at the listed calls.
#[derive(Drop)]
pub struct MemSink {
    room: Vec<u8>,
    place: usize,
    fails: Vec<u64>,
    calls: u64,
    faults: u64,
}

impl Model for MemSink {
    ghost Value = { SinkState };

    ghost view = { λ s. record {
      taken = take s.place s.room.items;
      room = length s.room.items - s.place;
      fails = s.fails.items;
      calls = s.calls;
      faults = s.faults;
    } };

    ghost invariant = { λ s. s.place ≤ length s.room.items };
}

impl MemSink {
    /// An empty sink with as much room as `room` is long, whose calls fail that `fails` lists by their numbers from 0.
    pub fn new(room: Vec<u8>, fails: Vec<u64>) -> Self
        ensures { result
            ≡ record { taken = []; room = length room.items; fails = fails.items; calls = 0; faults = 0 } }
    {
        MemSink {
            room,
            place: 0,
            fails,
            calls: 0,
            faults: 0,
        }
    }

    /// The bytes that were taken so far.
    pub fn bytes(&self) -> &[u8]
        ensures { result.now ≡ self.now.taken }
    {
        &self.room[..self.place]
    }
}

impl Sink for MemSink {
    ghost taken = { λ s. Some s.taken };

    ghost faults = { λ s. s.faults };

    ghost pieces = { λ s. Some s.calls };

    // The calls that are to fail, and how many bytes the sink has room for in all.
    ghost Lasting = { SinkLasting };

    ghost lasting = { λ s. record { fails = s.fails; whole = length s.taken + s.room } };

    /// Takes the whole piece, where it has room. A listed call fails, and takes the first half of a piece that has room,
    /// rounded down. A piece without room is a fault, and nothing of it is taken.
    fn write_all(&mut self, bytes: &[u8]) -> Result<(), Failed>
        ensures bytes { WriteAdds (Some self.old.taken) (Some self.new.taken) result bytes.now }
        ensures counted { CountsCall self.old.calls self.new.calls self.old.faults self.new.faults result }
        ensures failed { IsErr result
            ↔ (Contains self.old.fails self.old.calls ⊎ (self.old.room < length bytes.now)) }
        ensures half { OnErr result (length bytes.now ≤ self.old.room
            → self.new.taken ≡ self.old.taken ++ take (length bytes.now / 2) bytes.now) }
        ensures too_long { self.old.room < length bytes.now → self.new.taken ≡ self.old.taken }
        ensures room { length self.new.taken + self.new.room ≡ length self.old.taken + self.old.room }
        ensures fails { self.new.fails ≡ self.old.fails }
    {
        let call = self.calls;
        self.calls = call.saturating_add(1);
        if bytes.len() > self.room.len() - self.place {
            self.faults = self.faults.saturating_add(1);
            return Err(Failed);
        }
        if self.fails.contains(&call) {
            self.place = put_behind(&mut self.room, self.place, &bytes[..bytes.len() / 2]);
            self.faults = self.faults.saturating_add(1);
            return Err(Failed);
        }
        self.place = put_behind(&mut self.room, self.place, bytes);
        Ok(())
    }

    /// Nothing is held back, so there is nothing to do.
    fn flush(&mut self) -> Result<(), Failed>
        ensures bytes { Keeps (Some self.old.taken) (Some self.new.taken) }
        ensures cause { HasCause self.old.faults self.new.faults result }
        ensures idle { IsOk result × (self.new ≡ self.old) }
    {
        Ok(())
    }
}
