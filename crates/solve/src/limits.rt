// How long raising can go on.
ghost use Rattle.scale.specs.Causes.{Answers};
ghost use Rattle.book.specs.View.{ledger_of};
ghost use Rattle.solve.specs.Raisings.{most_rounds_refusal, Raisings};

use super::program::Program;
use book::Book;
use scale::{Refusal, Scale};

// The most rounds that raising a book's settings can take, statements × height. Its contract has what raising does under
// every setting: it ascends, stands still in time, at the least model, and the scenes are the answer sets.
pub fn most_rounds<S: Scale>(scale: &S, book: &Book) -> Result<u32, Refusal>
    ensures { Answers (most_rounds_refusal (S.meaning scale.now) (ledger_of book.now)) result (Raisings (S.meaning scale.now) (ledger_of book.now).rules (ledger_of book.now).statements) }
{
    let program = Program::new(scale, book)?;
    Ok(u32::from(program.statements) * u32::from(scale.height()))
}
