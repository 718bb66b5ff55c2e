// What compare answers.
ghost use Rattle.std.specs.Prelude.{◌≡◌, Some};
ghost use Rattle.engine.specs.Comparisons.{other_of, word_of, words_of};

use std::fmt;

// One of two books, as they were passed.
#[derive(Clone, Copy, PartialEq, Eq, Debug)]
pub enum Which {
    First,
    Second,
}

impl Which {
    pub(crate) fn other(self) -> Which
        ensures { result ≡ other_of self }
    {
        match self {
            Which::First => Which::Second,
            Which::Second => Which::First,
        }
    }
}

impl fmt::Display for Which {
    ghost output = { λ book. Some (word_of book) };

    fn fmt<W: fmt::Write>(&self, f: &mut fmt::Formatter<W>) -> fmt::Result {
        match self {
            Which::First => write!(f, "first"),
            Which::Second => write!(f, "second"),
        }
    }
}

// Two books are strongly equivalent, or an addendum of some rules and a setting tell them apart: with the addendum added
// to both, the setting is a scene of the named book and not of the other.
// An enum, since its cases are the answer's own words.
#[derive(Clone, Copy, PartialEq, Eq, Debug)]
pub enum Comparison {
    Equal,
    Unequal { book: Which, rules: usize },
}

impl fmt::Display for Comparison {
    ghost output = { λ answer. Some (words_of answer) };

    fn fmt<W: fmt::Write>(&self, f: &mut fmt::Formatter<W>) -> fmt::Result {
        match self {
            Comparison::Equal => write!(f, "equal"),
            Comparison::Unequal { book, rules } => write!(f, "unequal {book} {rules}"),
        }
    }
}
