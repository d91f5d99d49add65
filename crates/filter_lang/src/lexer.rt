//! The tokens of a text, one after another.

ghost use Rattle.std.specs.Prelude.{◌≤◌, length, IsTrue};
ghost use Rattle.filter_lang.specs.Words.{has_fact_within};

use crate::lexeme::{blanks, token_at};
use crate::token::Token;

/// Reads the tokens of a text. The one at which it stands is there to be looked at.
#[derive(Drop)]
pub(crate) struct Lexer<'a> {
    text: &'a [u8],
    /// The token at which it stands.
    pub(crate) token: Token,
    /// The offset in bytes at which that token starts.
    pub(crate) at: usize,
    /// The offset behind that token.
    place: usize,
    ghost within: { place ≤ length text.now },
    ghost fact_within: { IsTrue (has_fact_within token) },
}

impl<'a> Lexer<'a> {
    ghost use Rattle.std.specs.Prelude.{◌≡◌, ◌≤◌, length, drop, false};
    ghost use Rattle.filter_lang.specs.Lexer.{ahead, later};
    ghost use Rattle.filter_lang.specs.Words.{is_end};
    ghost use Rattle.filter_lang.specs.Tokens.{tokens, tokens_behind};

    /// A lexer at the first token of the text.
    pub(crate) fn new(text: &'a [u8]) -> Lexer<'a>
        ensures { ahead result ≡ tokens text.now }
    {
        Lexer::behind(text, 0)
    }

    /// Goes on to the next token.
    pub(crate) fn advance(&mut self)
        requires { is_end self.old.token ≡ false }
        ensures { later self.old ≡ ahead self.new }
    {
        *self = Lexer::behind(self.text, self.place);
    }

    // A lexer at the first token from an offset on.
    fn behind(text: &'a [u8], place: usize) -> Lexer<'a>
        requires { place ≤ length text.now }
        ensures { ahead result ≡ tokens_behind 0 place (drop place text.now) }
    {
        let at = place + blanks(&text[place..]);
        let rest = &text[at..];
        if rest.is_empty() {
            return Lexer {
                text,
                token: Token::End,
                at,
                place: at,
            };
        }
        let found = token_at(rest);
        Lexer {
            text,
            token: found.token,
            at,
            place: at + found.len,
        }
    }
}
