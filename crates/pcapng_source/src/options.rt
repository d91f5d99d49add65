//! The options of an interface, of which one tells its time resolution.

ghost use Rattle.std.specs.Prelude.{◌≡◌, ◌+◌, ◌*◌, ◌<◌, ◌≤◌, length};
ghost use Rattle.pcapng_source.specs.Fields.{is_resolution, with_resolution};
ghost use Rattle.pcapng_source.specs.Found.{FoundIs};

use crate::open::MICROSECONDS;
use crate::reader::{Reader, Stage};
use pcap_source::Order;

// The code of the option that tells a time resolution, and the length of its value.
const RESOLUTION_CODE: u16 = 9;

const RESOLUTION_LENGTH: u16 = 1;

// What the head of an option says, of which so many words are left behind it.
#[derive(Clone, Copy)]
pub(crate) enum Found {
    // The interface has no resolution of its own: the options end here or with this one.
    Nothing,
    // The next word tells the resolution.
    Told,
    // So many words of another option come next, and then more options.
    Other(u32),
}

// Whether this is the head of the option that tells the time resolution.
fn tells_resolution(order: Order, word: &[u8]) -> bool
    requires { 4 ≤ length word.now }
    ensures { result ≡ is_resolution order word.now }
{
    order.u16_in(word) == RESOLUTION_CODE && order.u16_at(word, 2) == RESOLUTION_LENGTH
}

// Judges the head of an option, behind which so many words are left.
fn judge_option(order: Order, word: &[u8], left: u32) -> Found
    requires { length word.now ≡ 4 }
    ensures { FoundIs order word.now left result }
{
    // How many words its value has.
    let words = (u32::from(order.u16_at(word, 2)) + 3) / 4;
    if order.u16_in(word) == 0 {
        return Found::Nothing;
    }
    if words > left {
        return Found::Nothing;
    }
    if tells_resolution(order, word) {
        return Found::Told;
    }
    if words == left {
        return Found::Nothing;
    }
    Found::Other(words)
}

impl Reader {
    ghost use Rattle.pcapng_source.specs.Reading.{HoldsWord, Judges};
    ghost use Rattle.pcapng_source.specs.declared.reader.Stage.TheVariants.{Body, OptionHead, Resolution};

    // Judges the head of an option.
    #[inline(never)]
    pub(crate) fn take_option(&mut self)
        requires { HoldsWord OptionHead self.old }
        ensures { Judges self.old self.new }
    {
        match judge_option(self.section.order(), self.word.as_slice(), self.options) {
            Found::Nothing => self.resolve(MICROSECONDS),
            Found::Told => {
                self.options -= 1;
                self.word.clear();
                self.stage = Stage::Resolution;
            }
            Found::Other(words) => {
                self.options -= words;
                self.owed = 0;
                self.skip = 4 * u64::from(words);
                self.stage = Stage::Body;
            }
        }
    }

    #[inline(never)]
    pub(crate) fn take_resolution(&mut self)
        requires { HoldsWord Resolution self.old }
        ensures { Judges self.old self.new }
    {
        let word = self.word.as_slice();
        let byte = word[0];
        self.resolve(byte);
    }

    // Gives the last interface the time resolution that this byte tells. The options behind it are skipped.
    fn resolve(&mut self, byte: u8)
        ensures { self.new ≡ record self.old {
          stage = Body;
          section = with_resolution self.old.section byte;
          owed = 0;
          skip = 4 * self.old.options;
          options = 0;
        } }
    {
        self.section.resolve(byte);
        self.owed = 0;
        self.skip = 4 * u64::from(self.options);
        self.options = 0;
        self.stage = Stage::Body;
    }
}
