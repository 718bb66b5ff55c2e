// Why a text was refused, and where: the text fault stands inside the line fault, and that inside the read fault.
ghost use Rattle.std.specs.Prelude.{◌≡◌, Some};
ghost use Rattle.text.specs.declared.faults.LineFault.TheVariants.{Text};
ghost use Rattle.text.specs.declared.faults.ReadFault.TheVariants.{Line, NoMemory};
ghost use Rattle.text.specs.Faults.{text_number, text_place, text_words, line_number, line_place, line_words, number_of, place_of, line_of, byte_of, layer_of, words_of};

use scale::Refusal;
use std::alloc::{AllocError, AllocFailed};
use std::error::Error;
use std::fmt;

// A line of the text, counted from 1, and the offset of a byte.
#[derive(Clone, Copy, PartialEq, Eq, Debug)]
pub struct Place {
    pub line: usize,
    pub byte: usize,
}

// The text is not made of tokens.
#[derive(Clone, Copy, PartialEq, Eq, Debug)]
pub enum TextFault {
    TooLong(Place),
    BadByte(Place),
    LongNumber(Place),
}

// A line is not one that may stand there.
#[derive(Clone, Copy, PartialEq, Eq, Debug)]
pub enum LineFault {
    Text(TextFault),
    Shape(Place),
    Name(Place),
}

// The text is not read.
#[derive(Clone, Copy, PartialEq, Eq, Debug)]
pub enum ReadFault {
    Line(LineFault),
    Engine(Refusal, Place),
    NoMemory,
}

// What found the fault. Want of memory counts with the engine.
#[derive(Clone, Copy, PartialEq, Eq, Debug)]
pub enum Layer {
    Text,
    Line,
    Engine,
}

impl From<TextFault> for LineFault {
    ghost from_gives = { λ e r. r ≡ Text e };

    fn from(e: TextFault) -> LineFault {
        LineFault::Text(e)
    }
}

impl From<LineFault> for ReadFault {
    ghost from_gives = { λ e r. r ≡ Line e };

    fn from(e: LineFault) -> ReadFault {
        ReadFault::Line(e)
    }
}

impl From<TextFault> for ReadFault {
    ghost from_gives = { λ e r. r ≡ Line (Text e) };

    fn from(e: TextFault) -> ReadFault {
        ReadFault::Line(LineFault::Text(e))
    }
}

impl From<AllocError> for ReadFault {
    ghost from_gives = { λ _ r. r ≡ NoMemory };

    fn from(_e: AllocError) -> ReadFault {
        ReadFault::NoMemory
    }
}

impl<T: Drop> From<AllocFailed<T>> for ReadFault {
    ghost from_gives = { λ _ r. r ≡ NoMemory };

    fn from(_e: AllocFailed<T>) -> ReadFault {
        ReadFault::NoMemory
    }
}

impl TextFault {
    fn number(self) -> u8
        ensures { result ≡ text_number self }
    {
        match self {
            TextFault::TooLong(_) => 1,
            TextFault::BadByte(_) => 2,
            TextFault::LongNumber(_) => 3,
        }
    }

    fn place(self) -> Place
        ensures { result ≡ text_place self }
    {
        match self {
            TextFault::TooLong(place) | TextFault::BadByte(place) | TextFault::LongNumber(place) =>
                place,
        }
    }
}

impl LineFault {
    fn number(self) -> u8
        ensures { result ≡ line_number self }
    {
        match self {
            LineFault::Text(fault) => fault.number(),
            LineFault::Shape(_) => 4,
            LineFault::Name(_) => 5,
        }
    }

    fn place(self) -> Place
        ensures { result ≡ line_place self }
    {
        match self {
            LineFault::Text(fault) => fault.place(),
            LineFault::Shape(place) | LineFault::Name(place) => place,
        }
    }
}

impl ReadFault {
    // The number of the cause, as a line of output shows it: a number, and not an enum, since users see it. 0, which no
    // cause has, is want of memory.
    pub fn number(&self) -> u8
        ensures { result ≡ number_of self.now }
    {
        match self {
            ReadFault::Line(fault) => fault.number(),
            ReadFault::Engine(refusal, _) => refusal.number(),
            ReadFault::NoMemory => 0,
        }
    }

    // No `Option`, though want of memory has no place: `line` and `byte` give their callers 0 for it.
    fn place(&self) -> Place
        ensures { result ≡ place_of self.now }
    {
        match self {
            ReadFault::Line(fault) => fault.place(),
            ReadFault::Engine(_, place) => *place,
            ReadFault::NoMemory => Place { line: 0, byte: 0 },
        }
    }

    // The faulty line; 0 at want of memory.
    pub fn line(&self) -> usize
        ensures { result ≡ line_of self.now }
    {
        self.place().line
    }

    // Where the faulty line starts; 0 at want of memory.
    pub fn byte(&self) -> usize
        ensures { result ≡ byte_of self.now }
    {
        self.place().byte
    }

    pub fn layer(&self) -> Layer
        ensures { result ≡ layer_of self.now }
    {
        match self {
            ReadFault::Line(LineFault::Text(_)) => Layer::Text,
            ReadFault::Line(LineFault::Shape(_) | LineFault::Name(_)) => Layer::Line,
            ReadFault::Engine(_, _) | ReadFault::NoMemory => Layer::Engine,
        }
    }
}

impl fmt::Display for TextFault {
    ghost output = { λ fault. Some (text_words fault) };

    fn fmt<W: fmt::Write>(&self, f: &mut fmt::Formatter<W>) -> fmt::Result {
        f.write_str(match self {
            TextFault::TooLong(_) => "a text has at most 8192 bytes",
            TextFault::BadByte(_) =>
                "a byte that is not allowed: a text has a to z, 0 to 9, underscore, space, : , > ~ and ends of lines",
            TextFault::LongNumber(_) => "a number has at most three digits",
        })
    }
}

impl fmt::Display for LineFault {
    ghost output = { λ fault. Some (line_words fault) };

    fn fmt<W: fmt::Write>(&self, f: &mut fmt::Formatter<W>) -> fmt::Result {
        match self {
            LineFault::Text(fault) => fault.fmt(f),
            LineFault::Shape(_) => f.write_str(
                "a line of no known form, or out of order: first the scale, then the names, then the rules and bounds",
            ),
            LineFault::Name(_) => f.write_str(
                "a name that no line declares, that is declared twice, or that has more than 12 bytes",
            ),
        }
    }
}

impl fmt::Display for ReadFault {
    ghost output = { λ fault. Some (words_of fault) };

    fn fmt<W: fmt::Write>(&self, f: &mut fmt::Formatter<W>) -> fmt::Result {
        match self {
            ReadFault::Line(fault) => fault.fmt(f),
            ReadFault::Engine(refusal, _) => refusal.fmt(f),
            ReadFault::NoMemory => f.write_str("there is no memory for the book"),
        }
    }
}

impl Error for TextFault {}

impl Error for LineFault {}

impl Error for ReadFault {}
