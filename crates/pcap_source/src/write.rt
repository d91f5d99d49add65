//! Writing a capture as it was read.

ghost use Rattle.std.specs.Prelude.{◌≡◌};
ghost use Rattle.mos_bytes.specs.Causes.{HasCause};
ghost use Rattle.mos_bytes.specs.Writes.{GivesPieces, WriteAdds};
ghost use Rattle.pcap_source.specs.Captured.{record_bytes};

use crate::{Capture, Frame};
use mos_bytes::{Failed, Sink};

impl Capture {
    /// Writes the global header as it was read, by one call of the sink. It takes no memory.
    pub fn write_header<O: Sink>(&self, out: &mut O) -> Result<(), Failed>
        ensures bytes { WriteAdds (O.taken out.old) (O.taken out.new) result self.now.header }
        ensures one_piece { GivesPieces 1 (O.pieces out.old) (O.pieces out.new) }
        ensures cause { HasCause (O.faults out.old) (O.faults out.new) result }
        ensures lasts { O.lasting out.new ≡ O.lasting out.old }
    {
        out.write_all(self.header())
    }

    /// Writes the frame's head and then its bytes: for a frame as `next` left it, what was read. It takes no memory.
    pub fn write_record<O: Sink>(&self, out: &mut O, frame: &Frame) -> Result<(), Failed>
        ensures bytes { WriteAdds (O.taken out.old) (O.taken out.new) result (record_bytes frame.now) }
        ensures cause { HasCause (O.faults out.old) (O.faults out.new) result }
        ensures lasts { O.lasting out.new ≡ O.lasting out.old }
    {
        out.write_all(&frame.head)?;
        out.write_all(&frame.bytes)
    }
}
