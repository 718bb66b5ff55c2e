// The files, and the cases that their sections make.
ghost use Rattle.std.specs.Prelude.{◌<◌};

use super::sections::Section;

// What the cases of a file ask.
#[derive(Clone, Copy, PartialEq, Eq, Debug)]
pub(crate) enum Kind {
    Books,
    Texts,
    Pairs,
}

// A file of cases, and the words that it goes by.
#[derive(Clone, Copy, Debug)]
pub(crate) struct File {
    pub(crate) kind: Kind,
    pub(crate) words: &'static str,
    pub(crate) path: &'static str,
}

// Three files have the answers that other programs have found. Three more have wrong ones, so that a comparison that finds
// no fault shows.
pub(crate) const FILES: [File; 6] = [
    File {
        kind: Kind::Books,
        words: "books",
        path: "books.txt",
    },
    File {
        kind: Kind::Texts,
        words: "texts",
        path: "texts.txt",
    },
    File {
        kind: Kind::Pairs,
        words: "pairs",
        path: "pairs.txt",
    },
    File {
        kind: Kind::Books,
        words: "wrong books",
        path: "wrong-books.txt",
    },
    File {
        kind: Kind::Texts,
        words: "wrong texts",
        path: "wrong-texts.txt",
    },
    File {
        kind: Kind::Pairs,
        words: "wrong pairs",
        path: "wrong-pairs.txt",
    },
];

pub(crate) enum Case<'a> {
    // A book, and the lines that tell its scenes.
    Book {
        text: &'a [u8],
        lines: &'a [u8],
    },
    // A text in hexadecimal, and what reading it answers.
    Text {
        hex: &'a [u8],
        verdict: &'a [u8],
    },
    // Two books, and whether they are strongly equivalent.
    Pair {
        first: &'a [u8],
        second: &'a [u8],
        equal: bool,
    },
}

// Is the answer that two books are strongly equivalent?
fn is_equal(word: &[u8]) -> Option<bool> {
    match word {
        b"equal" => Some(true),
        b"unequal" => Some(false),
        _ => None,
    }
}

impl Kind {
    // How many sections make a case.
    pub(crate) fn parts(self) -> usize
        ensures { 0 < result }
    {
        match self {
            Kind::Books | Kind::Texts => 2,
            Kind::Pairs => 3,
        }
    }

    // The case that some sections make; nothing where they are none of this kind.
    pub(crate) fn parse<'a>(self, sections: &[Section<'a>]) -> Option<Case<'a>> {
        match (self, sections) {
            (Kind::Books, [case, expect]) => Some(Case::Book {
                text: case.body_under(b"#case ")?,
                lines: expect.body_under(b"#expect")?,
            }),
            (Kind::Texts, [text, expect]) => Some(Case::Text {
                hex: text.line_after(b"#text ")?,
                verdict: expect.line_after(b"#expect ")?,
            }),
            (Kind::Pairs, [pair, second, expect]) => Some(Case::Pair {
                first: pair.body_under(b"#pair ")?,
                second: second.body_under(b"#second")?,
                equal: is_equal(expect.line_after(b"#expect ")?)?,
            }),
            _ => None,
        }
    }
}
