//! The line of a callback that saw nothing, in an array of its own. Most lines of a report are such lines, several of one packet
//! in a row: so how a line begins is kept while the packet stays the same, and the words behind it are copied whole.

ghost use Rattle.std.specs.Prelude.{◌≡◌, ◌+◌, ◌≤◌, ◌++◌, true, false, length, take, drop, codes};
ghost use Rattle.std.specs.Fmt.{decimal};
ghost use Rattle.callback_log.specs.Walk.{seen_lent};
ghost use Rattle.report_text.specs.ShortWords.{hook_word};

use app_api::{Seen, event_label};
use callback_log::Callback;
use itoa::write_digits;
use native_filters::Hook;

// Where what follows the packet's place begins: before it is room for `cb ` and twenty digits.
const MIDDLE: usize = 24;

// Where the event's name begins.
const NAME: usize = MIDDLE + 5;

// The word for a hook, between blanks. With three more blanks it is copied whole.
#[inline(always)]
fn hook_word(hook: Hook) -> &'static [u8; 8]
    ensures { result.now ≡ hook_word hook ++ codes "   " }
{
    match hook {
        Hook::Snd => b" snd    ",
        Hook::Rcv => b" rcv    ",
    }
}

// Whether a callback had a peek.
#[inline(always)]
fn saw_something(seen: Option<&Seen>) -> bool
    ensures { result ≡ false → seen_lent seen.entry ≡ Seen.Nothing }
{
    match seen {
        Some(seen) => !matches!(seen, Seen::Nothing),
        None => false,
    }
}

// How many digits a number has.
#[inline(always)]
fn width_of(n: u8) -> usize
    ensures width { result ≡ length (decimal n) }
    ensures few { result ≤ 3 }
{
    if n < 10 {
        1
    } else if n < 100 {
        2
    } else {
        3
    }
}

// Puts how the line begins before the middle, and answers from where on.
#[inline(always)]
fn put_beginning(bytes: &mut [u8; 48], index: u64) -> usize
    ensures start { result ≤ 24 }
    ensures text { drop result (take 24 bytes.new) ≡ codes "cb " ++ decimal index }
{
    let at = write_digits(index, bytes, MIDDLE);
    bytes[at - 1] = b' ';
    bytes[at - 2] = b'b';
    bytes[at - 3] = b'c';
    at - 3
}

// Puts the words for a hook and an event's name behind the middle, and answers where they end. The name has blanks behind it.
#[inline(always)]
fn put_words(bytes: &mut [u8; 48], hook: Hook, name: &str, len: usize) -> usize
    requires few { len ≤ 10 }
    requires long { 16 ≤ length name.now }
    ensures words { take result bytes.new ≡ take 24 bytes.old ++ (hook_word hook ++ take (len + 1) name.now) }
    ensures before { take 24 bytes.new ≡ take 24 bytes.old }
    ensures end { (24 ≤ result) × (result ≤ 40) }
{
    bytes[MIDDLE..MIDDLE + 8].copy_from_slice(hook_word(hook));
    bytes[NAME..NAME + 16].copy_from_slice(&name.as_bytes()[..16]);
    NAME + len + 1
}

// Puts a registration's number and the end of the line behind so many bytes, and answers where the line ends.
#[inline(always)]
fn put_ending(bytes: &mut [u8; 48], at: usize, reg: u8) -> usize
    requires { (24 ≤ at) × (at ≤ 40) }
    ensures ending { take result bytes.new ≡ take at bytes.old ++ (decimal reg ++ codes "\n") }
    ensures before { take 24 bytes.new ≡ take 24 bytes.old }
    ensures start { at ≤ result }
    ensures within { result ≤ 48 }
{
    if reg < 10 {
        bytes[at] = b'0' + reg;
        bytes[at + 1] = b'\n';
        return at + 2;
    }
    let end = at + width_of(reg);
    write_digits(u64::from(reg), bytes, end);
    bytes[end] = b'\n';
    end + 1
}

/// One line of a callback, in an array.
#[derive(Drop)]
pub(crate) struct ShortLine {
    bytes: [u8; 48],
    start: usize,
    end: usize,
    // The packet's place that stands in the line.
    index: u64,
    ghost starts: { start ≤ 24 },
    ghost begins: { drop start (take 24 bytes) ≡ codes "cb " ++ decimal index },
    ghost ends: { (24 ≤ end) × (end ≤ 48) },
}

impl ShortLine {
    ghost use Rattle.callback_log.specs.Walk.{entry_lent};
    ghost use Rattle.report_text.specs.Lines.{callback_line};
    ghost use Rattle.report_text.specs.Short.{line_in, index_in};

    /// A line that begins with the place 0.
    pub(crate) fn new() -> ShortLine {
        ShortLine {
            bytes: *b"                    cb 0                        ",
            start: 20,
            end: 24,
            index: 0,
        }
    }

    // Has the line begin with a packet's place.
    #[inline(always)]
    fn begin(&mut self, index: u64)
        ensures { index_in self.new ≡ index }
    {
        if index != self.index {
            self.start = put_beginning(&mut self.bytes, index);
            self.index = index;
        }
    }

    // Puts a whole line.
    #[inline(always)]
    fn put(&mut self, index: u64, hook: Hook, name: &str, len: usize, reg: u8)
        requires few { len ≤ 10 }
        requires long { 16 ≤ length name.now }
        ensures { line_in self.new ≡ (codes "cb " ++ decimal index)
            ++ ((hook_word hook ++ take (len + 1) name.now) ++ (decimal reg ++ codes "\n")) }
    {
        self.begin(index);
        let at = put_words(&mut self.bytes, hook, name, len);
        self.end = put_ending(&mut self.bytes, at, reg);
    }

    /// Puts a callback's line, where it saw nothing and its event has a name; else the answer is `false`.
    #[inline(always)]
    pub(crate) fn put_callback(&mut self, callback: &Callback<'_>) -> bool
        ensures { result ≡ true → line_in self.new ≡ callback_line (entry_lent callback.now) }
    {
        if saw_something(callback.seen) {
            return false;
        }
        let Some((name, len)) = event_label(callback.event) else {
            return false;
        };
        self.put(callback.index, callback.hook, name, len, callback.reg);
        true
    }

    /// The line.
    #[inline(always)]
    pub(crate) fn text(&self) -> &[u8]
        ensures { result.now ≡ line_in self.now }
    {
        &self.bytes[self.start..self.end]
    }
}
