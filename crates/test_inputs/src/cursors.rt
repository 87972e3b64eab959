//! Reading a row of text, one token at a time.

ghost use Rattle.test_inputs.specs.Brackets.{bracket_class};

use crate::faults::{Read, RowFault};
use text_tokens::{Class, Marks, Token, next_token};

/// A bracket.
#[derive(Clone, Copy)]
pub enum Bracket {
    /// `(`.
    Open,
    /// `)`.
    Close,
    /// `[`.
    OpenSquare,
    /// `]`.
    CloseSquare,
    /// `{`.
    OpenCurly,
    /// `}`.
    CloseCurly,
}

impl Marks for Bracket {
    ghost class = { bracket_class };

    #[tactic(auto, unfolding(crate::specs::Brackets::bracket_class))]
    fn classify(byte: u8) -> Class<Bracket> {
        match byte {
            b' ' | b'\t' | b'\n' => Class::Blank,
            b'(' => Class::Mark(Bracket::Open),
            b')' => Class::Mark(Bracket::Close),
            b'[' => Class::Mark(Bracket::OpenSquare),
            b']' => Class::Mark(Bracket::CloseSquare),
            b'{' => Class::Mark(Bracket::OpenCurly),
            b'}' => Class::Mark(Bracket::CloseCurly),
            _ => Class::Ordinary,
        }
    }
}

/// Whether a word parts the trees of a row.
fn is_mark(word: &[u8]) -> bool {
    match word {
        b"=" | b"/" | b":" | b"|-" => true,
        _ => false,
    }
}

/// The rest of a text that is being read.
#[derive(Drop)]
pub struct Cursor<'t> {
    rest: &'t [u8],
}

impl<'t> Cursor<'t> {
    /// Returns a cursor at the start of the text.
    pub fn new(text: &'t [u8]) -> Cursor<'t> {
        Cursor { rest: text }
    }

    /// Returns the next token, and moves the cursor past it.
    pub fn token(&mut self) -> Read<Token<'t, Bracket>> {
        let rest = self.rest;
        match next_token::<Bracket>(rest, 0) {
            None => Err(RowFault::Ends),
            Some(placed) => {
                self.rest = &rest[placed.next..];
                Ok(placed.token)
            }
        }
    }

    /// Returns the next token if it is a word, else None.
    fn next_word(&self) -> Option<&'t [u8]> {
        match next_token::<Bracket>(self.rest, 0) {
            None => None,
            Some(placed) => match placed.token {
                Token::Mark(_) => None,
                Token::Lexeme(word) => Some(word),
            },
        }
    }

    /// Moves past the next token.
    fn skip(&mut self) {
        let rest = self.rest;
        match next_token::<Bracket>(rest, 0) {
            None => {}
            Some(placed) => self.rest = &rest[placed.next..],
        }
    }

    /// Returns what is wrong if the next token isn't a word.
    fn no_word(&self) -> RowFault {
        if self.ends() {
            RowFault::Ends
        } else {
            RowFault::Bracket
        }
    }

    /// Returns the next token, which must be a word, and moves the cursor past it.
    pub fn word(&mut self) -> Read<&'t [u8]> {
        match self.next_word() {
            None => Err(self.no_word()),
            Some(word) => {
                self.skip();
                Ok(word)
            }
        }
    }

    /// Returns whether the next token is this word.
    pub fn meets(&self, word: &[u8]) -> bool {
        match self.next_word() {
            None => false,
            Some(found) => found == word,
        }
    }

    /// Moves past the next token if it is this word, and returns whether it was.
    pub fn passes(&mut self, word: &[u8]) -> bool {
        let meets = self.meets(word);
        if meets {
            self.skip();
        }
        meets
    }

    /// Returns whether the next token is a word that separates the trees of a row.
    pub fn meets_mark(&self) -> bool {
        match self.next_word() {
            None => false,
            Some(word) => is_mark(word),
        }
    }

    /// Returns the rest of the text.
    pub fn rest(&self) -> &'t [u8] {
        self.rest
    }

    /// Returns whether only blanks are left.
    pub fn ends(&self) -> bool {
        next_token::<Bracket>(self.rest, 0).is_none()
    }
}
