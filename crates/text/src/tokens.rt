// The words, numbers and marks of a line.
ghost use Rattle.std.specs.Prelude.{◌≡◌};
ghost use Rattle.std.specs.Option.{option_map};
ghost use Rattle.text.specs.Tokens.{said, short};
ghost use Rattle.text.specs.Parsing.{kind_of, name_of, number_of};

use super::sizes::ScaleKind;

#[derive(Clone, Copy, PartialEq, Eq, Debug)]
pub enum Mark {
    Colon,
    Comma,
    Above,
    Not,
}

// A token is a part of the text, with the offset of its first byte.
#[derive(Clone, Copy)]
pub enum Token<'a> {
    Word(&'a [u8], usize),
    Number(&'a [u8], usize),
    Mark(Mark, usize),
}

impl<'a> Token<'a> {
    // A name is a word that begins with a letter.
    pub(crate) fn name(&self) -> Option<&'a [u8]>
        ensures { option_map (λ x. x.now) result ≡ name_of (said self.now) }
    {
        match *self {
            Token::Word(word @ [b'a'..=b'z', ..], _) => Some(word),
            _ => None,
        }
    }

    pub(crate) fn number(&self) -> Option<&'a [u8]>
        ensures { option_map (λ x. x.now) result ≡ number_of (said self.now) }
    {
        match *self {
            Token::Number(digits, _) => Some(digits),
            _ => None,
        }
    }

    pub(crate) fn kind(&self) -> Option<ScaleKind>
        ensures { result ≡ kind_of (said self.now) }
    {
        match *self {
            Token::Word(word, _) => ScaleKind::of_word(word),
            _ => None,
        }
    }

    // A number has at most three digits.
    pub(crate) fn is_short(&self) -> bool
        ensures { result ≡ short (said self.now) }
    {
        match *self {
            Token::Number(digits, _) => digits.len() <= 3,
            _ => true,
        }
    }
}
