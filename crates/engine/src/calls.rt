// The calls of a run and what they answer.
ghost use Rattle.std.specs.Prelude.{◌≡◌, Some};
ghost use Rattle.engine.specs.Runs.{book_of, text_of};
ghost use Rattle.engine.specs.declared.calls.RunError.TheVariants.{Refused, NoMemory};

use super::answers::{Comparison, Which};
use book::{Head, Literal, Rule};
use scale::Refusal;
use solve::Verdict;
use std::alloc::AllocError;
use std::error::Error;
use std::fmt;

// The levels and statements that a book is made of.
#[derive(Clone, Copy, PartialEq, Eq, Debug)]
pub struct Size {
    pub levels: u8,
    pub statements: u8,
}

// A call on one of two books, or on both. It owns its settings and places. Calls are data and no closures, since what a
// run promises speaks of each call in the list.
#[derive(Drop)]
pub enum Call {
    Enter {
        book: Which,
        head: Head,
        weight: u8,
        body: Vec<Literal>,
    },
    Strike {
        book: Which,
        rule: usize,
    },
    Reweigh {
        book: Which,
        rule: usize,
        weight: u8,
    },
    Check {
        book: Which,
        setting: Vec<u8>,
    },
    Seek {
        book: Which,
        start: u64,
        place: Vec<u8>,
    },
    // Compares the book named, as the first, with the other.
    Compare {
        first: Which,
        addendum: Vec<Rule>,
        setting: Vec<u8>,
    },
}

impl Call {
    // The book that the call names.
    pub(crate) fn book(&self) -> Which
        ensures { result ≡ book_of self.now }
    {
        match self {
            Call::Enter { book, .. }
            | Call::Strike { book, .. }
            | Call::Reweigh { book, .. }
            | Call::Check { book, .. }
            | Call::Seek { book, .. }
            | Call::Compare { first: book, .. } => *book,
        }
    }
}

// What a call answered, with its settings and places given back.
#[derive(Drop)]
pub enum Outcome {
    Entered(Result<(), Refusal>),
    Struck(Result<(), Refusal>),
    Reweighed(Result<(), Refusal>),
    Checked(Result<Verdict, Refusal>, Vec<u8>),
    Sought(Result<Option<(u64, u32)>, Refusal>, Vec<u8>),
    Compared(Result<Comparison, Refusal>, Vec<Rule>, Vec<u8>),
}

// Why a run did nothing: a book cannot have the size asked for, or there is no memory for the outcomes.
#[derive(Clone, Copy, PartialEq, Eq, Debug)]
pub enum RunError {
    Refused(Refusal),
    NoMemory,
}

impl From<Refusal> for RunError {
    ghost from_gives = { λ refusal e. e ≡ Refused refusal };

    fn from(refusal: Refusal) -> RunError {
        RunError::Refused(refusal)
    }
}

impl From<AllocError> for RunError {
    ghost from_gives = { λ _ e. e ≡ NoMemory };

    fn from(_: AllocError) -> RunError {
        RunError::NoMemory
    }
}

impl fmt::Display for RunError {
    ghost output = { λ e. Some (text_of e) };

    fn fmt<W: fmt::Write>(&self, f: &mut fmt::Formatter<W>) -> fmt::Result {
        match self {
            RunError::Refused(_) => write!(f, "a book was refused"),
            RunError::NoMemory => write!(f, "there is no memory for the outcomes"),
        }
    }
}

impl Error for RunError {}
