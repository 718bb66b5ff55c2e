// Finding scenes in the order of their positions.
ghost use Rattle.std.specs.Prelude.{◌≡◌, ◌^◌, false, length, is_ok, MatchBool, MatchOption, ◌≢◌};
ghost use Rattle.scale.specs.Causes.{Answers};
ghost use Rattle.book.specs.View.{ledger_of};
ghost use Rattle.theory.specs.Semantics.{Setting, raise, Scene, SceneAfter};
ghost use Rattle.solve.specs.Programs.{meaning_of, clauses_of, statements_of};
ghost use Rattle.solve.specs.Searches.{seek_refusal, NoSceneBetween, FirstScene, Sought, Found};

use super::program::Program;
use super::settings::{setting_count, write_setting};
use book::{Book, MOST_STATEMENTS};
use scale::{Refusal, Scale};

// The most settings that seek goes through.
pub const MOST_SETTINGS: u32 = 65_536;

impl<'a, S: Scale> Program<'a, S> {
    // Does one raising leave the setting alone?
    fn stands(&self, row: &[u8]) -> bool
        requires { Setting (meaning_of self.now) (statements_of self.now) row.now }
        ensures { MatchBool result (raise (meaning_of self.now) (clauses_of self.now) (statements_of self.now) row.now row.now ≡ row.now) (raise (meaning_of self.now) (clauses_of self.now) (statements_of self.now) row.now row.now ≢ row.now) }
    {
        row.iter().enumerate().all(|(statement, degree)| self.gain(statement, row, row) == *degree)
    }

    // The rounds of a scene; nothing where the setting is none. Most settings fail the cheap test and need no least model.
    fn scene_rounds(&self, row: &[u8]) -> Option<u32>
        requires { Setting (meaning_of self.now) (statements_of self.now) row.now }
        ensures { MatchOption result (Scene (meaning_of self.now) (clauses_of self.now) (statements_of self.now) row.now → ⊥) (λ rounds. SceneAfter (meaning_of self.now) (clauses_of self.now) (statements_of self.now) row.now rounds) }
    {
        if !self.stands(row) || !self.all_hold(row) {
            return None;
        }
        // An array cut to the statements: it is written over and never grows, and takes no memory.
        let mut lower = [0; MOST_STATEMENTS];
        let least = &mut lower[..row.len()];
        let rounds = self.least_model(row, least);
        // An `if`, since by `then_some` the answer did not prove.
        if *least == *row { Some(rounds) } else { None }
    }

    // The first scene from `start` on and before `count`, which is the number of all settings. It is left in `row`.
    fn first_scene(&self, start: u64, count: u64, row: &mut [u8]) -> Option<(u64, u32)>
        requires room { length row.old ≡ statements_of self.now }
        requires whole { count ≡ (meaning_of self.now).levels ^ statements_of self.now }
        ensures { MatchOption result (NoSceneBetween (meaning_of self.now) (clauses_of self.now) (statements_of self.now) start count) (λ found. FirstScene (meaning_of self.now) (clauses_of self.now) (statements_of self.now) start row.new found.0 found.1) }
    {
        let levels = self.scale.levels();
        // No `find_map`, for its closure would write into the row, and then a proof knows nothing of what it answered.
        for position in start..count {
            write_setting(row, levels, position);
            if let Some(rounds) = self.scene_rounds(row) {
                return Some((position, rounds));
            }
        }
        None
    }

    // The same, with the setting of what is found copied to `place`, which else stays as it is.
    fn search(&self, start: u64, count: u64, place: &mut [u8]) -> Option<(u64, u32)>
        requires room { length place.old ≡ statements_of self.now }
        requires whole { count ≡ (meaning_of self.now).levels ^ statements_of self.now }
        ensures { Sought (meaning_of self.now) (clauses_of self.now) (statements_of self.now) start place.old place.new result }
    {
        // An array cut to the statements: it is written over and never grows, and takes no memory.
        let mut candidate = [0; MOST_STATEMENTS];
        let row = &mut candidate[..place.len()];
        let found = self.first_scene(start, count, row);
        if found.is_some() {
            place.copy_from_slice(row);
        }
        found
    }
}

// Finds the first scene of a book at or after a position: its position and rounds, and its setting in `place`. Where
// there is none, nothing is written.
pub fn seek<S: Scale>(
    scale: &S,
    book: &Book,
    start: u64,
    place: &mut [u8],
) -> Result<Option<(u64, u32)>, Refusal>
    ensures answer { Answers (seek_refusal (S.meaning scale.now) (ledger_of book.now) place.old) result (Found (S.meaning scale.now) (ledger_of book.now).rules (ledger_of book.now).statements start place.old place.new) }
    ensures refused { is_ok result ≡ false → place.new ≡ place.old }
{
    let program = Program::new(scale, book)?;
    program.test_length(place)?;
    let settings = setting_count(book.levels(), program.statements, MOST_SETTINGS);
    let count = settings.ok_or(Refusal::TooManySettings)?;
    Ok(program.search(start, count, place))
}
