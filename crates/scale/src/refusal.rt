// Why a call of the engine was refused. It stands in the lowest crate, since every crate above refuses by it. The
// discriminant is the number that users see; 1 to 5 belong to reading text.
ghost use Rattle.std.specs.Prelude.{◌≡◌, Some};
ghost use Rattle.scale.specs.Refusals.{number_of, words_of};

use std::error::Error;
use std::fmt;

#[derive(Clone, Copy, PartialEq, Eq, Debug)]
pub enum Refusal {
    ScaleSize = 6,
    BookSize = 7,
    UnknownStatement = 8,
    DegreeTooHigh = 9,
    BodyTooLong = 10,
    BookFull = 11,
    NoSuchRule = 12,
    LevelsDiffer = 13,
    StatementsDiffer = 14,
    PlaceLength = 15,
    TooManySettings = 16,
}

impl Refusal {
    // A method, since `u8::from` would not say that the byte is the number that users see.
    pub fn number(self) -> u8
        ensures { result ≡ number_of self }
    {
        self as u8
    }
}

impl fmt::Display for Refusal {
    ghost output = { λ refusal. Some (words_of refusal) };

    fn fmt<W: fmt::Write>(&self, f: &mut fmt::Formatter<W>) -> fmt::Result {
        f.write_str(match self {
            Refusal::ScaleSize =>
                "the size of the scale is out of range: 1 to 63 for luk and godel, 1 to 6 for hours",
            Refusal::BookSize => "a book has at most 16 statements",
            Refusal::UnknownStatement => "a rule speaks of a statement that the book does not have",
            Refusal::DegreeTooHigh => "a degree is not below the number of levels of the scale",
            Refusal::BodyTooLong => "a body has more than four literals",
            Refusal::BookFull => "a book has at most 64 rules",
            Refusal::NoSuchRule => "the book has no rule of that number",
            Refusal::LevelsDiffer => "the scale and a book do not have the same number of levels",
            Refusal::StatementsDiffer => "the two books do not have the same number of statements",
            Refusal::PlaceLength =>
                "a setting has exactly one degree for each statement of the book",
            Refusal::TooManySettings =>
                "levels to the power of statements is too large: at most 65536 for scenes, 4096 for compare",
        })
    }
}

impl Error for Refusal {}
