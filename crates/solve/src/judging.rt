// Judging a setting.
ghost use Rattle.std.specs.Prelude.{◌≡◌, nat_lt, Some};
ghost use Rattle.std.specs.List.{list_all};
ghost use Rattle.scale.specs.Causes.{Answers};
ghost use Rattle.book.specs.View.{ledger_of};
ghost use Rattle.theory.specs.Semantics.{Setting};
ghost use Rattle.solve.specs.Programs.{meaning_of, clauses_of, statements_of};
ghost use Rattle.solve.specs.Ready.{Degrees};
ghost use Rattle.solve.specs.Verdicts.{check_refusal, yield_refusal, YieldAt, Judged, FirstBreach, Checked};
ghost use Rattle.solve.specs.Words.{words_of};

use super::program::Program;
use super::raising::first_difference;
use super::values::Valuation;
use book::{Book, MOST_STATEMENTS};
use scale::{Refusal, Scale};
use std::fmt;

// The verdict on a setting: a scene, after some rounds; the first rule that it breaks, with the residuum of body and
// head; or, where no rule is broken, the first statement that the least model does not support, with its degree there.
#[derive(Clone, Copy, PartialEq, Eq, Debug)]
pub enum Verdict {
    Scene { rounds: u32 },
    Broken { rule: usize, residuum: u8 },
    Unsupported { statement: usize, degree: u8 },
}

impl fmt::Display for Verdict {
    ghost output = { λ v. Some (words_of v) };

    fn fmt<W: fmt::Write>(&self, f: &mut fmt::Formatter<W>) -> fmt::Result {
        match self {
            Verdict::Scene { rounds } => write!(f, "scene {rounds}"),
            Verdict::Broken { rule, residuum } => write!(f, "broken {rule} {residuum}"),
            Verdict::Unsupported { statement, degree } => {
                write!(f, "unsupported {statement} {degree}")
            }
        }
    }
}

impl<'a, S: Scale> Program<'a, S> {
    // The first rule that does not hold at a row of degrees.
    pub(crate) fn first_broken(&self, row: &[u8]) -> Option<usize>
        ensures { Degrees (meaning_of self.now) row.now → FirstBreach (meaning_of self.now) self.now.rules.now row.now result }
    {
        let valuation = Valuation {
            scale: self.scale,
            lower: row,
            upper: row,
        };
        self.rules
            .iter()
            .position(|rule| !valuation.rule_holds(rule))
    }

    fn judge(&self, row: &[u8]) -> Verdict
        requires { Setting (meaning_of self.now) (statements_of self.now) row.now }
        ensures { Judged (meaning_of self.now) (clauses_of self.now) (statements_of self.now) row.now result }
    {
        if let Some(rule) = self.first_broken(row) {
            let valuation = Valuation {
                scale: self.scale,
                lower: row,
                upper: row,
            };
            let residuum = valuation.rule_residuum(&self.rules[rule]);
            return Verdict::Broken { rule, residuum };
        }
        // An array cut to the statements: it is written over and never grows, and takes no memory.
        let mut lower = [0; MOST_STATEMENTS];
        let least = &mut lower[..row.len()];
        let rounds = self.least_model(row, least);
        match first_difference(least, row) {
            Some(statement) => Verdict::Unsupported {
                statement,
                degree: least[statement],
            },
            None => Verdict::Scene { rounds },
        }
    }
}

// Is every degree below `levels`?
fn all_below(row: &[u8], levels: u8) -> bool
    ensures { result ≡ list_all (λ d. nat_lt d levels) row.now }
{
    row.iter().all(|degree| *degree < levels)
}

// Judges a setting of a book.
pub fn check<S: Scale>(scale: &S, book: &Book, setting: &[u8]) -> Result<Verdict, Refusal>
    ensures { Answers (check_refusal (S.meaning scale.now) (ledger_of book.now) setting.now) result (Checked (S.meaning scale.now) (ledger_of book.now).rules (ledger_of book.now).statements setting.now) }
{
    let levels = book.levels();
    if !all_below(setting, levels) {
        return Err(Refusal::DegreeTooHigh);
    }
    let program = Program::new(scale, book)?;
    program.test_length(setting)?;
    Ok(program.judge(setting))
}

// How far rule i of a book demands its head at a setting: its yield there.
pub fn yield_at<S: Scale>(scale: &S, book: &Book, i: usize, setting: &[u8]) -> Result<u8, Refusal>
    ensures { Answers (yield_refusal (S.meaning scale.now) (ledger_of book.now) i setting.now) result (YieldAt (S.meaning scale.now) (ledger_of book.now).rules i setting.now) }
{
    if !all_below(setting, book.levels()) {
        return Err(Refusal::DegreeTooHigh);
    }
    let rule = book.rule(i)?;
    let program = Program::new(scale, book)?;
    program.test_length(setting)?;
    let valuation = Valuation {
        scale,
        lower: setting,
        upper: setting,
    };
    Ok(valuation.rule_yield(&rule))
}
