// The rules of a book on a scale: what every call on a book judges by.
ghost use Rattle.std.specs.Prelude.{◌≡◌, ◌≤◌, true, not, ◌==◌, [], ◌∷◌, length, MatchBool};
ghost use Rattle.std.specs.List.{list_all};
ghost use Rattle.scale.specs.Causes.{Answers, cause, first_met};
ghost use Rattle.scale.specs.declared.refusal.Refusal.TheVariants.{PlaceLength};
ghost use Rattle.book.specs.Rows.{kept};
ghost use Rattle.book.specs.View.{ledger_of};
ghost use Rattle.theory.specs.Semantics.{AllByRecursion, at, StatementHolds};
ghost use Rattle.solve.specs.Ready.{Degrees};
ghost use Rattle.solve.specs.Verdicts.{HoldsAt};

use super::values::Valuation;
use book::{Book, Head, Rule};
use scale::{Refusal, Scale};

// Rules and a scale that they are lawful on: each names only the program's statements and the scale's degrees.
// Rows of degrees stay slices with a clause, for a search writes each setting over the last: a type of their own would be
// made anew at every position.
#[derive(Drop)]
pub struct Program<'a, S: Scale> {
    pub(crate) scale: &'a S,
    pub(crate) rules: &'a [Rule],
    pub(crate) statements: u8,
    ghost some: { 2 ≤ (S.meaning scale.now).levels },
    ghost few: { statements ≤ 16 },
    ghost lawful: { list_all (kept (S.meaning scale.now).levels statements) rules.now ≡ true },
}

impl<'a, S: Scale> Program<'a, S> {
    ghost use Rattle.solve.specs.Programs.{program_refusal, ProgramOf, meaning_of, clauses_of, statements_of};

    // The rules of a book, on a scale of the book's levels.
    pub fn new(scale: &'a S, book: &'a Book) -> Result<Program<'a, S>, Refusal>
        ensures { Answers (program_refusal (S.meaning scale.now) (ledger_of book.now)) result (ProgramOf scale.now (ledger_of book.now)) }
    {
        if scale.levels() != book.levels() {
            return Err(Refusal::LevelsDiffer);
        }
        Ok(Program {
            scale,
            rules: book.rules(),
            statements: book.statements(),
        })
    }

    // Refuses a row that has not one place for each statement.
    pub(crate) fn test_length(&self, row: &[u8]) -> Result<(), Refusal>
        ensures { Answers (first_met (cause (not (length row.now == statements_of self.now)) PlaceLength ∷ [])) result (λ done. length row.now ≡ statements_of self.now) }
    {
        if row.len() != usize::from(self.statements) {
            return Err(Refusal::PlaceLength);
        }
        Ok(())
    }

    // Do all rules hold at a row of degrees?
    pub fn all_hold(&self, row: &[u8]) -> bool
        ensures { Degrees (meaning_of self.now) row.now → MatchBool result (AllByRecursion (HoldsAt (meaning_of self.now) row.now) (clauses_of self.now)) (AllByRecursion (HoldsAt (meaning_of self.now) row.now) (clauses_of self.now) → ⊥) }
    {
        self.first_broken(row).is_none()
    }

    // Do the rules with a statement for their head hold at a lower and an upper row of degrees?
    pub fn statements_hold(&self, lower: &[u8], upper: &[u8]) -> bool
        ensures { Degrees (meaning_of self.now) lower.now → Degrees (meaning_of self.now) upper.now → MatchBool result (AllByRecursion (StatementHolds (meaning_of self.now) (at lower.now) (at upper.now)) (clauses_of self.now)) (AllByRecursion (StatementHolds (meaning_of self.now) (at lower.now) (at upper.now)) (clauses_of self.now) → ⊥) }
    {
        let valuation = Valuation {
            scale: self.scale,
            lower,
            upper,
        };
        self.rules.iter().all(|rule| match rule.head {
            Head::Statement(_) => valuation.rule_holds(rule),
            Head::Bound(_) => true,
        })
    }
}
