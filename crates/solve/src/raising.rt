// Raising a lower row under an upper one, and the least model where raising stands still.
ghost use Rattle.std.specs.Prelude.{◌≡◌, length};
ghost use Rattle.theory.specs.Semantics.{at, Setting, gain, raise, raised, Rounds};
ghost use Rattle.solve.specs.Programs.{meaning_of, clauses_of, statements_of};
ghost use Rattle.solve.specs.Ready.{Degrees, FirstDifference};

use super::program::Program;
use super::values::Valuation;
use book::MOST_STATEMENTS;
use scale::Scale;

impl<'a, S: Scale> Program<'a, S> {
    // The join of what all rules demand of a statement.
    pub(crate) fn gain(&self, statement: usize, lower: &[u8], upper: &[u8]) -> u8
        requires lower { Degrees (meaning_of self.now) lower.now }
        requires upper { Degrees (meaning_of self.now) upper.now }
        ensures { result ≡ gain (meaning_of self.now) (at lower.now) (at upper.now) (clauses_of self.now) statement }
    {
        let valuation = Valuation {
            scale: self.scale,
            lower,
            upper,
        };
        self.rules.iter().fold(0, |gain, rule| {
            self.scale.join(gain, valuation.rule_share(rule, statement))
        })
    }

    // Writes one raising of `lower` under `upper` to `next`.
    fn raise(&self, upper: &[u8], lower: &[u8], next: &mut [u8])
        requires upper { Setting (meaning_of self.now) (statements_of self.now) upper.now }
        requires lower { Setting (meaning_of self.now) (statements_of self.now) lower.now }
        requires room { length next.old ≡ statements_of self.now }
        ensures { next.new ≡ raise (meaning_of self.now) (clauses_of self.now) (statements_of self.now) upper.now lower.now }
    {
        for (statement, degree) in next.iter_mut().enumerate() {
            *degree = self.gain(statement, lower, upper);
        }
    }

    // Writes the least model under `upper` to `lower`, and answers after how many rounds raising stands still there.
    pub(crate) fn least_model(&self, upper: &[u8], lower: &mut [u8]) -> u32
        requires upper { Setting (meaning_of self.now) (statements_of self.now) upper.now }
        requires room { length lower.old ≡ statements_of self.now }
        ensures rounds { Rounds (meaning_of self.now) (clauses_of self.now) (statements_of self.now) upper.now result }
        ensures after { lower.new ≡ raised (meaning_of self.now) (clauses_of self.now) (statements_of self.now) upper.now result }
    {
        // An array cut to the statements: it is written over and never grows, and takes no memory.
        let mut row = [0; MOST_STATEMENTS];
        let next = &mut row[..upper.len()];
        lower.copy_from_slice(next);
        // How many raisings there are is known only where they stand still.
        let mut rounds = 0;
        loop {
            self.raise(upper, lower, next);
            if *next == *lower {
                return rounds;
            }
            lower.copy_from_slice(next);
            rounds += 1;
        }
    }
}

// The first statement at which two rows of the same length differ.
pub(crate) fn first_difference(a: &[u8], b: &[u8]) -> Option<usize>
    requires { length a.now ≡ length b.now }
    ensures { FirstDifference a.now b.now result }
{
    a.iter().zip(b).position(|(x, y)| x != y)
}
