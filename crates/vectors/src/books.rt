// Books and their scenes.
use super::agreed;
use book::Book;
use console::{Stop, write_scenes};
use scale::Scale;
use std::alloc::Global;
use std::io::{self, ErrorKind, Write};
use text::{OnScale, read};

// A writer that takes the expected lines and no others. It fails at the first other one, so that a wrong answer costs no more
// of the search, and it keeps no line.
#[derive(Drop)]
struct Expected<'a> {
    rest: &'a [u8],
    agrees: bool,
}

impl Write for Expected<'_> {
    fn write(&mut self, bytes: &[u8]) -> io::Result<usize> {
        let Some(rest) = self.rest.strip_prefix(bytes) else {
            self.agrees = false;
            return Err(io::Error::from(ErrorKind::InvalidData));
        };
        self.rest = rest;
        Ok(bytes.len())
    }

    fn flush(&mut self) -> io::Result<()> {
        Ok(())
    }
}

// Are the lines those of the book's scenes in the order of positions, and then of their count?
#[derive(Drop)]
struct Scenes<'a> {
    book: &'a Book,
    lines: &'a [u8],
}

impl OnScale for Scenes<'_> {
    type Answer = Result<bool, Stop>;

    fn on_scale<S: Scale>(self, scale: &S) -> Result<bool, Stop> {
        let mut expected = Expected {
            rest: self.lines,
            agrees: true,
        };
        let written = write_scenes(&mut expected, scale, self.book);
        if !expected.agrees {
            return Ok(false);
        }
        written?;
        Ok(expected.rest.is_empty())
    }
}

pub(crate) fn agrees(heap: Global, text: &[u8], lines: &[u8]) -> anyhow::Result<bool> {
    let mut book = Book::new(heap)?;
    let Ok(reading) = read(heap, text, &mut book) else {
        return Ok(false);
    };
    let scenes = Scenes { book: &book, lines };
    agreed(reading.kind.run(reading.size, scenes))
}
