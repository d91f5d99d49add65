//! Judging what a reader holds, and going on where that is enough.

ghost use Rattle.std.specs.Prelude.{◌≡◌, ◌<◌, ◌≤◌, ◌+◌, List, ℕ, [], length, None};

use crate::NgFault;
use crate::held::Made;
use crate::judge::judge;
use crate::kind::begins_section;
use crate::reader::{FIRST_FIELDS, Reader, Stage, WORD};

// The global header of the classic capture: microseconds, version 2.4, records of up to 262,144 bytes, Ethernet.
const CLASSIC_HEADER: [u8; 24] = [
    0xa1, 0xb2, 0xc3, 0xd4, 0, 2, 0, 4, 0, 0, 0, 0, 0, 0, 0, 0, 0, 4, 0, 0, 0, 0, 0, 1,
];

impl Reader {
    ghost use Rattle.pcapng_source.specs.Reading.{HoldsHead, HoldsWord, IsBare, IsFitting, IsJudged, IsRefused, Judges, Settles};
    ghost use Rattle.pcapng_source.specs.Refusals.{refusal_of};
    ghost use Rattle.pcapng_source.specs.declared.reader.Stage.TheVariants.{Start, Trailer};

    // Judges what is held, and goes on where that is enough.
    #[inline(always)]
    pub(crate) fn take(&mut self)
        requires { IsFitting self.old }
        ensures { Settles self.old self.new }
    {
        if self.made() == 0 && self.direct(1) == 0 {
            self.take_held();
            self.leave_body();
        }
    }

    #[inline(never)]
    fn take_held(&mut self)
        requires bare { IsBare self.old }
        ensures judges { Judges self.old self.new }
        ensures stays { IsRefused self.old.stage → self.new ≡ self.old }
    {
        match self.stage {
            Stage::Start if self.word.as_slice().len() == WORD => self.begin(),
            Stage::Head => self.take_head(),
            Stage::OptionHead if self.word.as_slice().len() == WORD => self.take_option(),
            Stage::Resolution if self.word.as_slice().len() == WORD => self.take_resolution(),
            Stage::Trailer if self.word.as_slice().len() == WORD => self.close(),
            _ => {}
        }
    }

    // Tells by the first four bytes whether the file is a pcapng file.
    #[inline(never)]
    fn begin(&mut self)
        requires { HoldsWord Start self.old }
        ensures { Judges self.old self.new }
    {
        let word = self.word.as_slice();
        self.head.clear();
        if begins_section(word) {
            self.head.put(word);
            self.made = Made::of(&CLASSIC_HEADER);
            self.stage = Stage::Head;
        } else {
            self.made = Made::of(word);
            self.stage = Stage::Plain;
        }
    }

    #[inline(never)]
    fn take_head(&mut self)
        requires { HoldsHead self.old }
        ensures { Judges self.old self.new }
    {
        if self.head.as_slice().len() < FIRST_FIELDS {
            return;
        }
        if self.place.allowed() == 0 {
            self.stage = Stage::Refused(NgFault::TooManyBlocks(self.place.offset()), 0);
            return;
        }
        match judge(&self.section, self.place.offset(), self.head.as_slice()) {
            Some(fault) => self.stage = Stage::Refused(fault, 0),
            None => self.open(),
        }
    }

    // Goes on behind data and skipped bytes: to an option, or else to the second total length.
    fn leave_body(&mut self)
        requires { IsJudged self.old }
        ensures { Settles self.old self.new }
    {
        if let Stage::Body = self.stage
            && self.owed == 0
            && self.skip == 0
        {
            self.word.clear();
            if self.options > 0 {
                self.options -= 1;
                self.stage = Stage::OptionHead;
            } else {
                self.stage = Stage::Trailer;
            }
        }
    }

    // Judges the second total length.
    fn close(&mut self)
        requires { HoldsWord Trailer self.old }
        ensures { Judges self.old self.new }
    {
        if self.section.order().u32_in(self.word.as_slice()) == self.block.total {
            self.head.clear();
            self.stage = Stage::Head;
        } else {
            self.stage = Stage::Refused(NgFault::BadBlock(self.block.offset), 0);
        }
    }
}
