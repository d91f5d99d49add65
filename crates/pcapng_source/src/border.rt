//! Going from the data of a packet into the next block at once.

ghost use Rattle.std.specs.Prelude.{◌≡◌, ◌+◌, ◌*◌, ◌<◌, ◌≤◌, ℕ, List, [], ◌++◌, length};
ghost use Rattle.std.specs.Bool.{OnTrue};
ghost use Rattle.std.specs.Option.{IfSome};

use crate::NgFault;
use crate::judge::judge_as;
use crate::kind::Kind;
use crate::reader::{Reader, Stage, WORD};

// How many bytes pad the data of a packet at most.
const PADDING: u64 = 3;

// How many bytes lead from the data of a packet into the next block at most: three that pad the data, the second total
// length, and the longest head.
pub(crate) const BORDER: usize = 35;

// How many bytes the head of an enhanced packet block has.
const PACKET_HEAD: usize = 28;

impl Reader {
    ghost use Rattle.pcapng_source.specs.Fields.{block_kind};
    ghost use Rattle.pcapng_source.specs.Reading.{EndsInHead, GoesOver, HoldsHead, IsAtBorder, IsBorder, IsUnmet, Judges, rest_of, stop_of};
    ghost use Rattle.pcapng_source.specs.declared.kind.Kind.TheVariants.{EnhancedPacket};
    ghost use Rattle.pcapng_source.specs.declared.reader.Stage.TheVariants.{Head};

    // How many of these bytes, which come next, lead from the data of a packet into the next block, where they are all
    // there: what pads the data, the second total length and the head of that block.
    #[inline]
    pub(crate) fn border(&self, front: &[u8]) -> Option<usize>
        ensures border { IfSome result (IsBorder self.now front.now) }
        ensures most { IfSome result (λ count. count ≤ 35) }
    {
        match self.stage {
            Stage::Body if self.owed == 0 && self.options == 0 && self.skip <= PADDING => {
                let start = self.skip as usize + WORD;
                let end = start + self.stop(front.get(start..)?);
                (end <= front.len()).then_some(end)
            }
            _ => None,
        }
    }

    // Goes over these bytes, which come next behind the data of a packet.
    #[inline]
    pub(crate) fn cross(&mut self, bytes: &[u8])
        requires few { length bytes.now ≤ 35 }
        requires border { IsAtBorder self.old }
        ensures rest { EndsInHead self.old bytes.now
            → (left : List ℕ) → rest_of self.new left ≡ rest_of self.old (bytes.now ++ left) }
        ensures unmet { IsUnmet self.new }
    {
        let padding = self.skip as usize;
        if bytes.len() < padding + WORD {
            self.begin_trailer(bytes);
        } else if self.section.order().u32_at(bytes, padding) == self.block.total {
            self.begin_head(&bytes[padding + WORD..]);
        } else {
            self.stage = Stage::Refused(NgFault::BadBlock(self.block.offset), 0);
        }
    }

    // The same from the next block on, which begins with these bytes. No more of them are held than are judged next, and
    // the whole head of an enhanced packet block is judged at once.
    #[inline]
    fn begin_head(&mut self, head: &[u8])
        requires made { self.old.made ≡ [] }
        ensures rest { length head.now ≤ stop_of self.old.section.order head.now → (left : List ℕ)
            → rest_of self.new left ≡ rest_of (record self.old { head = head.now; stage = Head }) left }
        ensures unmet { IsUnmet self.new }
    {
        self.head.clear();
        self.stage = Stage::Head;
        if self.is_packet(head) && self.place.allowed() > 0 {
            self.head.put(head);
            self.take_packet();
        } else {
            let stop = self.stop(head);
            self.head.put(&head[..stop.min(head.len())]);
        }
    }

    // Whether this is the whole head of an enhanced packet block.
    #[inline]
    fn is_packet(&self, head: &[u8]) -> bool
        ensures whole { OnTrue result (length head.now ≡ 28) }
        ensures kind { OnTrue result (block_kind self.now.section.order head.now ≡ EnhancedPacket) }
    {
        head.len() == PACKET_HEAD
            && matches!(Kind::of(self.section.order(), head), Kind::EnhancedPacket)
    }

    // Goes on behind the head of an enhanced packet block. Most heads are one: where its kind is known, its fields are
    // read once.
    #[inline(always)]
    fn take_packet(&mut self)
        requires head { HoldsHead self.old }
        requires allowed { 0 < self.old.place.allowed }
        requires kind { block_kind self.old.section.order self.old.head ≡ EnhancedPacket }
        requires whole { length self.old.head ≡ 28 }
        ensures { Judges self.old self.new }
    {
        let offset = self.place.offset();
        match judge_as(
            Kind::EnhancedPacket,
            &self.section,
            offset,
            self.head.as_slice(),
        ) {
            Some(fault) => self.stage = Stage::Refused(fault, 0),
            None => self.open_enhanced(),
        }
    }

    // The same where the second total length isn't whole.
    fn begin_trailer(&mut self, bytes: &[u8])
        requires border { IsAtBorder self.old }
        requires few { length bytes.now < self.old.skip + 4 }
        ensures { GoesOver self.old self.new bytes.now }
    {
        let padding = bytes.len().min(self.skip as usize);
        self.skip -= padding as u64;
        if self.skip == 0 {
            self.word.clear();
            self.word.put(&bytes[padding..]);
            self.stage = Stage::Trailer;
        }
    }
}
