// Comparing two books by strong equivalence.
ghost use Rattle.std.specs.Prelude.{◌≡◌, ◌*◌, ◌≤◌, false, length, is_ok};
ghost use Rattle.scale.specs.Causes.{Answers};
ghost use Rattle.book.specs.View.{ledger_of};
ghost use Rattle.engine.specs.Comparisons.{compare_refusal, places, Told, Compared};

use super::addenda::{write_addendum, write_facts};
use super::answers::Comparison;
use super::pairs::{Difference, Search};
use book::{Book, MOST_STATEMENTS, Rule};
use scale::{Refusal, Scale};
use solve::{Program, setting_count};

// The most settings that compare goes through.
const MOST_SETTINGS: u32 = 4_096;

impl<'a, S: Scale> Search<'a, S> {
    ghost use Rattle.solve.specs.Programs.{clauses_of};

    // Compares the two books.
    fn tell(&self, addendum: &mut [Rule], setting: &mut [u8]) -> Comparison
        requires long { length setting.old ≡ self.now.statements }
        requires room { 2 * length setting.old ≤ length addendum.old }
        ensures { Told (S.meaning self.now.scale.now) self.now.statements (clauses_of self.now.first) (clauses_of self.now.second) (places addendum.old setting.old) (places addendum.new setting.new) result }
    {
        // An array cut to the statements: it is written over and never grows, and takes no memory.
        let mut row = [0; MOST_STATEMENTS];
        let upper = &mut row[..self.statements];
        match self.find_difference(upper) {
            None => Comparison::Equal,
            Some(Difference::ModelOf(book)) => {
                write_facts(upper, addendum);
                setting.copy_from_slice(upper);
                Comparison::Unequal {
                    book,
                    rules: setting.len(),
                }
            }
            Some(Difference::PairOf(book, lower)) => {
                let rules = write_addendum(&lower[..self.statements], upper, addendum);
                setting.copy_from_slice(upper);
                Comparison::Unequal {
                    book: book.other(),
                    rules,
                }
            }
        }
    }
}

// Are two books strongly equivalent: have they the same scenes, whichever rules are added to both? Where not, the first
// rows of `addendum` and `setting` tell them apart.
pub fn compare<S: Scale>(
    scale: &S,
    first: &Book,
    second: &Book,
    addendum: &mut [Rule],
    setting: &mut [u8],
) -> Result<Comparison, Refusal>
    ensures answer { Answers (compare_refusal (S.meaning scale.now) (ledger_of first.now) (ledger_of second.now) addendum.old setting.old) result (Compared (S.meaning scale.now) (ledger_of first.now).statements (ledger_of first.now).rules (ledger_of second.now).rules (places addendum.old setting.old) (places addendum.new setting.new)) }
    ensures refused { is_ok result ≡ false → places addendum.new setting.new ≡ places addendum.old setting.old }
{
    let first_program = Program::new(scale, first)?;
    let second_program = Program::new(scale, second)?;
    let statements = first.statements();
    if statements != second.statements() {
        return Err(Refusal::StatementsDiffer);
    }
    let length = usize::from(statements);
    if setting.len() != length || addendum.len() < 2 * length {
        return Err(Refusal::PlaceLength);
    }
    let count = setting_count(first.levels(), statements, MOST_SETTINGS).ok_or(
        Refusal::TooManySettings,
    )?;
    let search = Search {
        scale,
        first: first_program,
        second: second_program,
        statements: length,
        count,
    };
    Ok(search.tell(addendum, setting))
}
