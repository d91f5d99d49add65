//! What was read of a file and not given yet. It knows no source.

ghost use Rattle.std.specs.Prelude.{◌≡◌, ◌+◌, ◌-◌, ◌*◌, ◌<◌, ◌≤◌, ℕ, List, [], ◌++◌, length, take, min, IsTrue, IsFalse};

use crate::NgFault;
use crate::held::{Head, Made, Word};
use crate::kind::Kind;
use crate::place::Place;
use crate::section::Section;
use pcap_source::Order;

// How many bytes of a block are there before anything of it is judged: its type and its total length.
pub(crate) const FIRST_FIELDS: usize = 8;

// How many bytes are held between heads: the first field of a file, of an option, and behind a body.
pub(crate) const WORD: usize = 4;

/// Where in a file a reader stands.
#[derive(Clone, Copy)]
pub(crate) enum Stage {
    // In the first four bytes.
    Start,
    // In a file that is no pcapng file.
    Plain,
    // In the head of a block.
    Head,
    // In the body of a block: in its data, or in bytes that are skipped.
    Body,
    // In the head of an option.
    OptionHead,
    // In the value of the option that tells the time resolution.
    Resolution,
    // In the second total length of a block.
    Trailer,
    // Before a block that is refused. So many reads have met the refusal.
    Refused(NgFault, u64),
}

// What is done with the bytes that come next: how many at most are given as they are, skipped or held. Or none is read.
#[derive(Clone, Copy)]
pub(crate) enum Next {
    Give(usize),
    Skip(usize),
    Hold(usize),
    Refuse,
}

// The block in whose body a reader stands.
#[derive(Clone, Copy)]
pub(crate) struct Block {
    pub(crate) offset: u64,
    pub(crate) total: u32,
}

#[derive(Drop)]
pub(crate) struct Reader {
    pub(crate) stage: Stage,
    // The section of the block at hand.
    pub(crate) section: Section,
    // Where the next block begins; in a head, the block at hand.
    pub(crate) place: Place,
    pub(crate) block: Block,
    // What is left of the block's body: data to be given, bytes to be skipped, and then options in words of four bytes,
    // but for the word that is read now.
    pub(crate) owed: u32,
    pub(crate) skip: u64,
    pub(crate) options: u32,
    // What was read and not judged yet: the head of a block, or a word.
    pub(crate) head: Head,
    pub(crate) word: Word,
    // What was made and not given yet.
    pub(crate) made: Made,
}

impl Reader {
    ghost use Rattle.mos_bytes.specs.Causes.{risen};
    ghost use Rattle.std.specs.Bool.{OnTrue, OnFalse};
    ghost use Rattle.pcapng_source.specs.Given.{prepended};
    ghost use Rattle.pcapng_source.specs.Blocks.{any};
    ghost use Rattle.pcapng_source.specs.Reading.{IsBare, IsFitting, IsOpen, IsRefused, IsUnmet, MaySkip, NextIs, ReadsOver, Stays, Wants, direct_at, fault_at, is_plain_at, met_at, rest_of, settled_at, stop_of, wanted_at, weight_of};

    // In front of a file.
    #[tactic(auto, unfolding(crate::specs::Blocks::any))]
    pub(crate) fn new() -> Self
        ensures rest { (left : List ℕ) → rest_of result left ≡ any left }
        ensures unmet { IsUnmet result }
    {
        Reader {
            stage: Stage::Start,
            section: Section::new(Order::Big),
            place: Place::first(),
            block: Block {
                offset: 0,
                total: 0,
            },
            owed: 0,
            skip: 0,
            options: 0,
            head: Head::new(),
            word: Word::new(),
            made: Made::new(),
        }
    }

    // How many bytes were made and not given yet.
    pub(crate) fn made(&self) -> usize
        ensures { result ≡ length self.now.made }
    {
        self.made.len()
    }

    // The bytes that were made and not given yet.
    pub(crate) fn made_bytes(&self) -> &[u8]
        ensures { result.now ≡ self.now.made }
    {
        self.made.as_slice()
    }

    // Whether the bytes that come next are given as they are, to the end of the file.
    pub(crate) fn is_plain(&self) -> bool
        ensures { result ≡ is_plain_at self.now.stage self.now }
    {
        match self.stage {
            Stage::Plain => self.made.len() == 0,
            _ => false,
        }
    }

    // How many of the next bytes are given as they are, of so many.
    pub(crate) fn direct(&self, count: usize) -> usize
        ensures direct { result ≡ direct_at self.now.stage self.now count }
        ensures open { 0 < result → IsOpen self.now }
    {
        match self.stage {
            Stage::Plain => count,
            Stage::Body => count.min(self.owed as usize),
            _ => 0,
        }
    }

    // Gives bytes that were made, as many as `buf` has room for, and answers how many.
    pub(crate) fn give(&mut self, buf: &mut [u8]) -> usize
        requires { IsFitting self.old }
        ensures count { result ≡ min (length self.old.made) (length buf.old) }
        ensures rest { (left : List ℕ)
            → rest_of self.old left ≡ prepended (take result buf.new) (rest_of self.new left) }
        ensures stays { Stays self.old self.new }
    {
        self.made.give(buf)
    }

    // What is done with the bytes that come next, where there is so much room for them.
    #[inline]
    pub(crate) fn next(&self, room: usize) -> Next
        requires settled { settled_at self.now.stage self.now }
        requires room { 0 < room }
        ensures { NextIs self.now room result }
    {
        match self.stage {
            Stage::Plain => Next::Give(room),
            Stage::Body if self.owed > 0 => Next::Give(room.min(self.owed as usize)),
            Stage::Body => Next::Skip(self.skip as usize),
            Stage::Head => Next::Hold(self.head_wanted()),
            Stage::Start | Stage::OptionHead | Stage::Resolution | Stage::Trailer => {
                Next::Hold(WORD - self.word.as_slice().len())
            }
            Stage::Refused(_, _) => Next::Refuse,
        }
    }

    // How many bytes more of a head are to be held before it is judged again.
    #[inline]
    fn head_wanted(&self) -> usize
        ensures { result ≡ stop_of self.now.section.order self.now.head - length self.now.head }
    {
        let head = self.head.as_slice();
        self.stop(head).saturating_sub(head.len())
    }

    // How many bytes of a block are held before it is judged again, where it begins with these.
    #[inline]
    pub(crate) fn stop(&self, bytes: &[u8]) -> usize
        ensures stop { result ≡ stop_of self.now.section.order bytes.now }
        ensures most { result ≤ 28 }
    {
        if bytes.len() < FIRST_FIELDS {
            return FIRST_FIELDS;
        }
        Kind::of(self.section.order(), bytes).head_length()
    }

    // So many of the next bytes were given as they are.
    pub(crate) fn gave(&mut self, count: usize)
        requires few { count ≤ direct_at self.old.stage self.old count }
        requires bare { IsBare self.old }
        ensures rest { (front left : List ℕ) → length front ≡ count
            → rest_of self.old (front ++ left) ≡ prepended front (rest_of self.new left) }
        ensures stays { Stays self.old self.new }
    {
        if let Stage::Body = self.stage {
            self.owed = (self.owed as usize - count) as u32;
        }
    }

    // So many of the next bytes were skipped.
    pub(crate) fn skip(&mut self, count: usize)
        requires { MaySkip self.old count }
        ensures rest { (front left : List ℕ) → length front ≡ count
            → rest_of self.new left ≡ rest_of self.old (front ++ left) }
        ensures lighter { 0 < count → weight_of self.new < weight_of self.old }
        ensures stays { Stays self.old self.new }
    {
        if let Stage::Body = self.stage {
            self.skip -= count as u64;
        }
    }

    // Holds these bytes, which come next.
    #[inline]
    pub(crate) fn keep(&mut self, bytes: &[u8])
        requires few { length bytes.now ≤ wanted_at self.old.stage self.old }
        requires fits { IsFitting self.old }
        ensures { ReadsOver self.old self.new bytes.now }
    {
        match self.stage {
            Stage::Start | Stage::OptionHead | Stage::Resolution | Stage::Trailer => {
                self.word.put(bytes)
            }
            Stage::Head => self.head.put(bytes),
            Stage::Plain | Stage::Body | Stage::Refused(_, _) => {}
        }
    }

    // No byte comes any more. Whether there are bytes to be given for all that: a file of up to three bytes.
    pub(crate) fn end(&mut self) -> bool
        requires { Wants self.old (wanted_at self.old.stage self.old) }
        ensures start { OnTrue result ((rest_of self.new [] ≡ rest_of self.old [])
            × (weight_of self.new < weight_of self.old)) }
        ensures over { OnFalse result ((self.new ≡ self.old) × IsOpen self.new) }
        ensures fits { IsFitting self.new }
        ensures met { met_at self.new.stage ≡ met_at self.old.stage }
    {
        match self.stage {
            Stage::Start => {
                self.made = Made::of(self.word.as_slice());
                self.word.clear();
                self.stage = Stage::Plain;
                true
            }
            _ => false,
        }
    }

    // A read has met the refusal before which this stands.
    pub(crate) fn meet(&mut self)
        requires refused { IsRefused self.old.stage }
        requires fits { IsFitting self.old }
        ensures rest { (left : List ℕ) → rest_of self.new left ≡ rest_of self.old left }
        ensures fits { IsFitting self.new }
        ensures met { met_at self.new.stage ≡ risen (met_at self.old.stage) }
        ensures grows { met_at self.old.stage ≤ met_at self.new.stage }
        ensures made { self.new.made ≡ self.old.made }
    {
        if let Stage::Refused(fault, met) = self.stage {
            self.stage = Stage::Refused(fault, met.saturating_add(1));
        }
    }

    // The refusal, where a read has met it.
    pub(crate) fn fault(&self) -> Option<NgFault>
        ensures { result ≡ fault_at self.now.stage }
    {
        match self.stage {
            Stage::Refused(fault, met) if met > 0 => Some(fault),
            _ => None,
        }
    }
}
