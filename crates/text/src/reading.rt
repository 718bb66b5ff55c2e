// A whole text.
ghost use Rattle.std.specs.Prelude.{◌≡◌, ◌≤◌, map, length, IfOk};
ghost use Rattle.book.specs.View.{ledger_of};
ghost use Rattle.text.specs.Drafting.{state_of};
ghost use Rattle.text.specs.Entries.{names_of};
ghost use Rattle.text.specs.Meaning.{Did, rows_read, Reads, Once, fitting};
ghost use Rattle.text.specs.Naming.{reading_of, less_names, Declares, DeclaresOnce};
ghost use Rattle.text.specs.Parsing.{line_of};
ghost use Rattle.text.specs.Rows.{ends_line, lines_of, place_at};

use super::drafts::{Draft, Names, ScaleSize};
use super::faults::{LineFault, Place, ReadFault, TextFault};
use super::sizes::ScaleKind;
use book::Book;
use std::alloc::Global;

// The longest text, in bytes.
pub const LONGEST_TEXT: usize = 8192;

// What a text says of its scale, and how many statements it declares.
#[derive(Clone, Copy, PartialEq, Eq, Debug)]
pub struct Reading {
    pub kind: ScaleKind,
    pub size: u8,
    pub statements: u8,
}

// A reading and the names of its statements, in their order.
#[derive(Drop)]
pub struct Named<'a> {
    pub reading: Reading,
    pub names: Vec<&'a [u8]>,
}

fn place_of(text: &[u8], byte: usize) -> Place
    requires { byte ≤ length text.now }
    ensures { result ≡ place_at text.now byte }
{
    let ended = text[..byte].iter().filter(|b| **b == b'\n').count();
    Place {
        line: ended + 1,
        byte,
    }
}

fn check_length(text: &[u8]) -> Result<(), TextFault>
    ensures { result ≡ fitting text.now }
{
    if text.len() > LONGEST_TEXT {
        return Err(TextFault::TooLong(place_of(text, LONGEST_TEXT)));
    }
    Ok(())
}

fn read_lines<'a>(text: &'a [u8], draft: &mut Draft<'a>) -> Result<(), ReadFault>
    requires { length text.now ≤ 8192 }
    ensures { Did (rows_read line_of (state_of draft.old) (lines_of text.now)) result (state_of draft.new) }
{
    // The place goes along, since `split` does not tell where a part begins.
    let mut place = Place { line: 1, byte: 0 };
    for line in text.split(|b| *b == b'\n') {
        draft.read_line(line, place)?;
        place = Place {
            line: place.line + 1,
            byte: place.byte + line.len() + 1,
        };
    }
    Ok(())
}

fn reading_of(scale: ScaleSize, names: &Names) -> Reading
    ensures { result ≡ reading_of scale (length (names_of names.now)) }
{
    Reading {
        kind: scale.kind,
        size: scale.size,
        statements: names.count(),
    }
}

// Fills the book with what the text says, in place of what it held; a refused text leaves it as it was.
pub fn read_named<'a>(heap: Global, text: &'a [u8], book: &mut Book) -> Result<Named<'a>, ReadFault>
    ensures answer { Reads text.now (ledger_of book.old) (less_names result) (ledger_of book.new) }
    ensures only { Once text.now }
    ensures names { IfOk result (λ n. Declares text.now (map (λ x. x.now) n.names.items)) }
    ensures names_only { DeclaresOnce text.now }
{
    check_length(text)?;
    let mut draft = Draft::new(heap)?;
    read_lines(text, &mut draft)?;
    let Draft {
        scale,
        names,
        book: fresh,
        ..
    } = draft;
    let Some(scale) = scale else {
        return Err(LineFault::Shape(place_of(text, text.len())).into());
    };
    *book = fresh;
    let reading = reading_of(scale, &names);
    Ok(Named {
        reading,
        names: names.list,
    })
}

// As read_named, less the names.
pub fn read(heap: Global, text: &[u8], book: &mut Book) -> Result<Reading, ReadFault>
    ensures answer { Reads text.now (ledger_of book.old) result (ledger_of book.new) }
    ensures only { Once text.now }
{
    let named = read_named(heap, text, book)?;
    Ok(named.reading)
}
