//! Reads the words of a line, tolerantly: what is read is written again and compared with the line.

ghost use Rattle.std.specs.Prelude.{◌≡◌, ◌%◌, ◌^◌, slice_index};
ghost use Rattle.std.specs.Char.{digit_value};
ghost use Rattle.report_text.specs.ReadWords.{is_mark, first_word, after_word, skip, number_from, number, decimal_of};

// Whether it stands between two words.
fn is_mark(byte: u8) -> bool
    ensures { result ≡ is_mark byte }
{
    matches!(byte, b'\n' | b' ' | b'.' | b':' | b'[' | b']')
}

// The bytes before the first mark.
pub(super) fn first_word(text: &[u8]) -> &[u8]
    ensures { result.now ≡ first_word text.now }
{
    for (place, byte) in text.iter().enumerate() {
        if is_mark(*byte) {
            return &text[..place];
        }
    }
    text
}

// The bytes behind the first mark.
fn after_word(text: &[u8]) -> &[u8]
    ensures { result.now ≡ after_word text.now }
{
    for (place, byte) in text.iter().enumerate() {
        if is_mark(*byte) {
            return &text[place + 1..];
        }
    }
    &[]
}

// The text behind so many words.
pub(super) fn skip(text: &[u8], words: u8) -> &[u8]
    ensures { result.now ≡ skip words text.now }
{
    let mut rest = text;
    for _turn in 0..words {
        rest = after_word(rest);
    }
    rest
}

// The value of a digit or a letter, and 36 for any other byte.
fn digit(byte: u8) -> u64
    ensures { result ≡ digit_value byte }
{
    match byte {
        b'0'..=b'9' => u64::from(byte - b'0'),
        b'A'..=b'Z' => u64::from(byte - b'A') + 10,
        b'a'..=b'z' => u64::from(byte - b'a') + 10,
        _ => 36,
    }
}

// The number of the first word, as 64 bits keep it.
pub(super) fn number(text: &[u8], radix: u64) -> u64
    ensures { result ≡ number radix text.now }
{
    let mut number: u64 = 0;
    for byte in text {
        if is_mark(*byte) {
            return number;
        }
        number = number.wrapping_mul(radix).wrapping_add(digit(*byte));
    }
    number
}

// The number of the first word in decimal.
pub(super) fn decimal(text: &[u8]) -> u64
    ensures { result ≡ decimal_of text.now }
{
    number(text, 10)
}

// The same, as 8 bits keep it.
pub(super) fn decimal_u8(text: &[u8]) -> u8
    ensures { result ≡ decimal_of text.now % 2 ^ 8 }
{
    (decimal(text) % 0x100) as u8
}

// The same, as 16 bits keep it.
pub(super) fn decimal_u16(text: &[u8]) -> u16
    ensures { result ≡ decimal_of text.now % 2 ^ 16 }
{
    (decimal(text) % 0x1_0000) as u16
}

// The same, as 32 bits keep it.
pub(super) fn decimal_u32(text: &[u8]) -> u32
    ensures { result ≡ decimal_of text.now % 2 ^ 32 }
{
    (decimal(text) % 0x1_0000_0000) as u32
}

// The byte with which a text begins, or 0 where there is none.
pub(super) fn first(text: &[u8]) -> u8
    ensures { result ≡ slice_index text.now 0 }
{
    text.first().copied().unwrap_or(0)
}

// Its second byte, or 0 where there is none.
pub(super) fn second(text: &[u8]) -> u8
    ensures { result ≡ slice_index text.now 1 }
{
    text.get(1).copied().unwrap_or(0)
}
