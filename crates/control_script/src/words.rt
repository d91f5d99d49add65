//! The words of a line, one after another.

ghost use Rattle.std.specs.Prelude.{◌≡◌, ◌≤◌, ◌<◌, length, IsTrue};
ghost use Rattle.std.specs.List.{list_all, prefix_len};
ghost use Rattle.std.specs.Str.{bytes_eq};
ghost use Rattle.control_script.specs.Lines.{is_text};
ghost use Rattle.filter_lang.specs.Tokens.{is_blank};
ghost use Rattle.control_script.specs.Words.{is_in_word};

/// Goes over the words of a line. The one at which it stands is there to be looked at; at the end it is empty.
#[derive(Drop)]
pub(crate) struct Words<'a> {
    /// The word at which it stands.
    pub(crate) word: &'a [u8],
    /// The text behind that word.
    pub(crate) rest: &'a [u8],
    /// The number of the line.
    pub(crate) line: u32,
    ghost text: { IsTrue (list_all is_text rest.now) },
}

impl<'a> Words<'a> {
    ghost use Rattle.std.specs.Prelude.{◌≡◌, ◌<◌, ◌≤◌, ◌==◌, length, IsTrue};
    ghost use Rattle.std.specs.List.{list_all};
    ghost use Rattle.std.specs.Str.{bytes_eq};
    ghost use Rattle.control_script.specs.Lines.{is_text};
    ghost use Rattle.control_script.specs.Reader.{ahead, later, left};
    ghost use Rattle.control_script.specs.Words.{words};

    /// At the first word of the text of a line.
    pub(crate) fn at(line: u32, text: &'a [u8]) -> Words<'a>
        requires text { IsTrue (list_all is_text text.now) }
        ensures ahead { ahead result ≡ words text.now }
        ensures line { result.line ≡ line }
        ensures left { left result ≤ length text.now }
    {
        let begun = &text[blanks(text)..];
        let len = word_len(begun);
        Words {
            word: &begun[..len],
            rest: &begun[len..],
            line,
        }
    }

    /// Goes on to the next word.
    pub(crate) fn advance(&mut self)
        requires { 0 < length self.old.word.now }
        ensures ahead { later self.old ≡ ahead self.new }
        ensures line { self.new.line ≡ self.old.line }
        ensures left { left self.new < left self.old }
    {
        *self = Words::at(self.line, self.rest);
    }

    /// Whether it stands at this word.
    pub(crate) fn is(&self, word: &str) -> bool
        requires { 0 < length word.now }
        ensures value { result ≡ bytes_eq self.now.word.now word.now }
        ensures some { IsTrue result → 0 < length self.now.word.now }
    {
        is(self.word, word)
    }

    /// Whether it stands at the end.
    pub(crate) fn is_end(&self) -> bool
        ensures { result ≡ (length self.now.word.now == 0) }
    {
        self.word.is_empty()
    }
}

/// Whether a word is this one.
pub(crate) fn is(word: &[u8], name: &str) -> bool
    requires { 0 < length name.now }
    ensures value { result ≡ bytes_eq word.now name.now }
    ensures some { IsTrue result → 0 < length word.now }
{
    word == name.as_bytes()
}

// Whether a byte stands between words.
pub(crate) fn is_blank(byte: u8) -> bool
    ensures { result ≡ is_blank byte }
{
    byte == b' ' || byte == b'\t'
}

// How many blanks and tabs the text begins with.
fn blanks(text: &[u8]) -> usize
    ensures value { result ≡ prefix_len is_blank text.now }
    ensures within { result ≤ length text.now }
{
    text.iter().take_while(|b| is_blank(**b)).count()
}

// How many bytes of a word the text begins with.
fn word_len(text: &[u8]) -> usize
    ensures value { result ≡ prefix_len is_in_word text.now }
    ensures within { result ≤ length text.now }
{
    text.iter().take_while(|b| !is_blank(**b)).count()
}
