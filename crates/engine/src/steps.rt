// One call of a run.
ghost use Rattle.std.specs.Prelude.{◌≡◌};
ghost use Rattle.book.specs.View.{ledger_of};
ghost use Rattle.engine.specs.Runs.{ledgers_of, after, changed, OutcomeOf, OutcomeOn};

use super::answers::Which;
use super::calls::{Call, Outcome};
use super::comparing::compare;
use book::Book;
use scale::Scale;
use solve::{check, seek};

// Does a call on the book that it names; only compare reads the other.
fn act<S: Scale>(scale: &S, named: &mut Book, other: &Book, call: Call) -> Outcome
    ensures answer { OutcomeOn (S.meaning scale.now) (ledger_of named.old) (ledger_of other.now) call result }
    ensures changes { ledger_of named.new ≡ changed call (ledger_of named.old) }
{
    match call {
        Call::Enter {
            head,
            weight,
            body,
            ..
        } => Outcome::Entered(named.enter(head, weight, &body)),
        Call::Strike { rule, .. } => Outcome::Struck(named.strike(rule)),
        Call::Reweigh { rule, weight, .. } => Outcome::Reweighed(named.reweigh(rule, weight)),
        Call::Check { setting, .. } => {
            let verdict = check(scale, named, &setting);
            Outcome::Checked(verdict, setting)
        }
        Call::Seek {
            start,
            mut place,
            ..
        } => {
            let found = seek(scale, named, start, &mut place);
            Outcome::Sought(found, place)
        }
        Call::Compare {
            mut addendum,
            mut setting,
            ..
        } => {
            let comparison = compare(scale, named, other, &mut addendum, &mut setting);
            Outcome::Compared(comparison, addendum, setting)
        }
    }
}

// Does one call. A refused call changes nothing.
pub(crate) fn step<S: Scale>(scale: &S, first: &mut Book, second: &mut Book, call: Call) -> Outcome
    ensures answer { OutcomeOf (S.meaning scale.now) (ledgers_of first.old second.old) call result }
    ensures changes { ledgers_of first.new second.new ≡ after call (ledgers_of first.old second.old) }
{
    match call.book() {
        Which::First => act(scale, first, second, call),
        Which::Second => act(scale, second, first, call),
    }
}
