// The search for a here-and-there pair of one book that is none of the other.
ghost use Rattle.std.specs.Prelude.{◌≡◌, ◌^◌, length, MatchBool};
ghost use Rattle.theory.specs.AnswerSet.{Under};
ghost use Rattle.theory.specs.Position.{position};
ghost use Rattle.theory.specs.Semantics.{Setting};
ghost use Rattle.solve.specs.Ready.{Degrees};
ghost use Rattle.solve.specs.Programs.{meaning_of, clauses_of, statements_of};
ghost use Rattle.engine.specs.Differences.{KeptBy, LowerFound, UpperFound, Differs};

use super::answers::Which;
use super::settings::first_answer;
use book::MOST_STATEMENTS;
use scale::Scale;
use solve::Program;

// Where two books differ: at a setting at which the rules of one book all hold and not those of the other, or at a pair
// of one book, whose upper setting satisfies both, that is no pair of the other. The lower setting of a pair comes with
// it, in the first places of a row: an array, which is copied and takes no memory.
#[derive(Clone, Copy)]
pub(crate) enum Difference {
    ModelOf(Which),
    PairOf(Which, [u8; MOST_STATEMENTS]),
}

// Is one setting below another, statement by statement? A `for`, since with the chain of both rows' iterators (`zip`, `all`)
// compare took a tenth longer: this is asked of each pair of settings.
fn is_under<S: Scale>(scale: &S, lower: &[u8], upper: &[u8]) -> bool
    requires { (Degrees (S.meaning scale.now) lower.now) × ((Degrees (S.meaning scale.now) upper.now) × (length lower.now ≡ length upper.now)) }
    ensures { MatchBool result (Under (S.meaning scale.now) lower.now upper.now) (Under (S.meaning scale.now) lower.now upper.now → ⊥) }
{
    for (statement, low) in lower.iter().enumerate() {
        if !scale.below(*low, upper[statement]) {
            return false;
        }
    }
    true
}

// Two programs of one scale and as many statements, and the number of their settings. Settings are slices here too, as in
// `Program`, which shows neither its scale nor its statements.
#[derive(Drop)]
pub(crate) struct Search<'a, S: Scale> {
    pub(crate) scale: &'a S,
    pub(crate) first: Program<'a, S>,
    pub(crate) second: Program<'a, S>,
    pub(crate) statements: usize,
    pub(crate) count: u64,
    ghost first_scale: { meaning_of first ≡ S.meaning scale.now },
    ghost second_scale: { meaning_of second ≡ S.meaning scale.now },
    ghost first_size: { statements_of first ≡ statements },
    ghost second_size: { statements_of second ≡ statements },
    ghost whole: { count ≡ (S.meaning scale.now).levels ^ statements },
}

impl<'a, S: Scale> Search<'a, S> {
    // Whose rules a lower setting keeps under an upper one, where it is one book's alone.
    fn kept_by(&self, lower: &[u8], upper: &[u8]) -> Option<Which>
        requires low { Setting (S.meaning self.now.scale.now) self.now.statements lower.now }
        requires high { Setting (S.meaning self.now.scale.now) self.now.statements upper.now }
        ensures { KeptBy (S.meaning self.now.scale.now) lower.now upper.now (clauses_of self.now.first) (clauses_of self.now.second) result }
    {
        if !is_under(self.scale, lower, upper) {
            return None;
        }
        let first = self.first.statements_hold(lower, upper);
        let second = self.second.statements_hold(lower, upper);
        match (first, second) {
            (true, false) => Some(Which::First),
            (false, true) => Some(Which::Second),
            _ => None,
        }
    }

    // A lower setting that keeps the rules of one book alone under an upper one.
    fn lower_difference(&self, upper: &[u8]) -> Option<Difference>
        requires { Setting (S.meaning self.now.scale.now) self.now.statements upper.now }
        ensures { LowerFound (S.meaning self.now.scale.now) self.now.statements upper.now (clauses_of self.now.first) (clauses_of self.now.second) result }
    {
        // An array cut to the statements: it is written over and never grows, and takes no memory.
        let mut row = [0; MOST_STATEMENTS];
        let lower = &mut row[..self.statements];
        let book = first_answer(lower, self.scale.levels(), self.count, |lower| {
            self.kept_by(lower, upper)
        })?;
        Some(Difference::PairOf(book, row))
    }

    // A difference of the two books at one upper setting.
    fn upper_difference(&self, upper: &[u8]) -> Option<Difference>
        requires { Setting (S.meaning self.now.scale.now) self.now.statements upper.now }
        ensures { UpperFound (S.meaning self.now.scale.now) self.now.statements upper.now (clauses_of self.now.first) (clauses_of self.now.second) result }
    {
        let first = self.first.all_hold(upper);
        let second = self.second.all_hold(upper);
        match (first, second) {
            (true, true) => self.lower_difference(upper),
            (true, false) => Some(Difference::ModelOf(Which::First)),
            (false, true) => Some(Difference::ModelOf(Which::Second)),
            (false, false) => None,
        }
    }

    // A difference of the two books; its upper setting is left in `upper`, where the search begins at position 0.
    pub(crate) fn find_difference(&self, upper: &mut [u8]) -> Option<Difference>
        requires setting { Setting (S.meaning self.now.scale.now) self.now.statements upper.old }
        requires start { position (S.meaning self.now.scale.now).levels upper.old ≡ 0 }
        ensures { Differs (S.meaning self.now.scale.now) self.now.statements (clauses_of self.now.first) (clauses_of self.now.second) upper.new result }
    {
        first_answer(upper, self.scale.levels(), self.count, |upper| {
            self.upper_difference(upper)
        })
    }
}
