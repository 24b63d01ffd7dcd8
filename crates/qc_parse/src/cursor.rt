//! A text, read token by token.

ghost use Rattle.std.specs.Prelude.{◌≡◌, ◌<◌, ◌^◌, length, Ok};
ghost use Rattle.qc_sql.specs.Tokens.{lexed};
ghost use Rattle.qc_sql.specs.Reading as meant;
ghost use Rattle.qc_sql.specs.Reading.{Unread};
ghost use Rattle.qc_sql.specs.Grammar.{from_front};
ghost use Rattle.qc_parse.specs.Cursors.{unread, beyond, Takes};

use crate::halt::Halt;
use qc_lex::{Ahead, Lexeme, Lexer, is_same_word};

/// Where a reader stands in a text: where the token before ends, what is next, and where the lexer reads on behind that.
#[derive(Clone, Copy)]
pub struct Cursor<'a> {
    pub text: &'a [u8],
    pub behind: u32,
    pub ahead: Ahead<'a>,
    pub lexer: Lexer<'a>,
}

impl<'a> Cursor<'a> {
    /// Stands before the first token.
    pub fn new(text: &'a [u8], ansi: bool) -> Cursor<'a>
        requires { length text.now < 2 ^ 32 }
        ensures { unread result ≡ from_front text.now (lexed text.now ansi) }
    {
        let mut lexer = Lexer::new(text, ansi);
        let ahead = lexer.next();
        Cursor {
            text,
            behind: 0,
            ahead,
            lexer,
        }
    }

    /// Passes the next token, if there is one.
    pub fn pass(&mut self)
        ensures { unread self.new ≡ beyond (unread self.old) }
    {
        if let Ahead::Token { to, .. } = self.ahead {
            self.behind = to;
            self.ahead = self.lexer.next();
        }
    }

    /// Whether this word is next, in any case.
    pub fn at_word(&self, word: &[u8]) -> bool
        ensures { result ≡ meant.at_word word.now (unread self.now) }
    {
        match self.ahead {
            Ahead::Token {
                what: Lexeme::Word(bytes),
                ..
            } => is_same_word(word, bytes),
            _ => false,
        }
    }

    /// Whether this sign is next.
    pub fn at_sign(&self, sign: &[u8]) -> bool
        ensures { result ≡ meant.at_sign sign.now (unread self.now) }
    {
        match self.ahead {
            Ahead::Token {
                what: Lexeme::Sign(bytes),
                ..
            } => sign == bytes,
            _ => false,
        }
    }

    /// Takes this word.
    pub fn word(&mut self, word: &[u8]) -> Result<(), Halt>
        ensures { Takes (λ x. x) result (unread self.new) (meant.word word.now (unread self.old)) }
    {
        if !self.at_word(word) {
            return Err(Halt::Unexpected);
        }
        self.pass();
        Ok(())
    }

    /// Takes this sign.
    pub fn sign(&mut self, sign: &[u8]) -> Result<(), Halt>
        ensures { Takes (λ x. x) result (unread self.new) (meant.sign sign.now (unread self.old)) }
    {
        if !self.at_sign(sign) {
            return Err(Halt::Unexpected);
        }
        self.pass();
        Ok(())
    }

    /// Takes this word where it is next, and tells whether it was.
    pub fn passed(&mut self, word: &[u8]) -> bool
        ensures { meant.passed word.now (unread self.old) ≡ Ok (result, unread self.new) }
    {
        let is_next = self.at_word(word);
        if is_next {
            self.pass();
        }
        is_next
    }
}
