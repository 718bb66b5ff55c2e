// The scenes of a book, a line each.
ghost use Rattle.std.specs.Prelude.{◌≡◌, None, OnOk};
ghost use Rattle.book.specs.View.{ledger_of};
ghost use Rattle.solve.specs.Programs.{program_refusal};

use super::prints::{Stop, print_line};
use book::{Book, MOST_STATEMENTS};
use output::Line;
use scale::Scale;
use solve::{MOST_SETTINGS, Program, seek};
use std::io::Write;

// Writes every scene in the order of positions, and then how many there are. A scale of other levels than the book's is
// refused before anything is written.
pub fn write_scenes<S: Scale>(out: &mut impl Write, scale: &S, book: &Book) -> Result<(), Stop>
    ensures { OnOk result (program_refusal (S.meaning scale.now) (ledger_of book.now) ≡ None) }
{
    Program::new(scale, book)?;
    // An array cut to the statements: once a book is read, no scene of it is lost for want of memory.
    let mut row = [0; MOST_STATEMENTS];
    let place = &mut row[..usize::from(book.statements()).min(MOST_STATEMENTS)];
    let mut start = 0;
    let mut count = 0u64;
    // Each scene is sought from behind the last one, so that its position and the count go along. There are no more scenes
    // than settings.
    for _ in 0..MOST_SETTINGS {
        let Some((position, rounds)) = seek(scale, book, start, place)? else {
            break;
        };
        let scene = Line::Scene {
            position,
            rounds,
            degrees: place,
        };
        print_line(out, &scene)?;
        count = count.saturating_add(1);
        start = position.saturating_add(1);
    }
    let end = Line::count_of(count);
    print_line(out, &end)?;
    Ok(())
}
