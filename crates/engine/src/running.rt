// Runs of calls on two books.
ghost use Rattle.std.specs.Prelude.{◌≡◌, ◌≤◌, [], vec_len, vec_capacity};
ghost use Rattle.scale.specs.Causes.{answered, left};
ghost use Rattle.engine.specs.Runs.{ledgers_of, after_all, OutcomesOf, sizes_refusal, empties, Ran};

use super::calls::{Call, Outcome, RunError, Size};
use super::steps::step;
use book::{Book, allowed_size};
use scale::{Refusal, Scale};
use std::alloc::Global;

// Makes both books, or neither. Here and below the two books are two parameters: a call changes one of them and reads the
// other, so a type that held both would be taken apart at each.
fn make_both(
    first: &mut Book,
    second: &mut Book,
    first_size: Size,
    second_size: Size,
) -> Result<(), Refusal>
    ensures answer { result ≡ answered (sizes_refusal first_size second_size) tt }
    ensures changes { ledgers_of first.new second.new ≡ left (sizes_refusal first_size second_size) (empties first_size second_size) (ledgers_of first.old second.old) }
{
    allowed_size(first_size.levels, first_size.statements)?;
    allowed_size(second_size.levels, second_size.statements)?;
    first.make(first_size.levels, first_size.statements)?;
    second.make(second_size.levels, second_size.statements)
}

// Does the calls in order. There is room for their outcomes.
fn do_all<S: Scale>(
    scale: &S,
    first: &mut Book,
    second: &mut Book,
    calls: Vec<Call>,
    mut outcomes: Vec<Outcome>,
) -> Vec<Outcome>
    requires none { outcomes.items ≡ [] }
    requires room { vec_len calls ≤ vec_capacity outcomes }
    ensures answers { OutcomesOf (S.meaning scale.now) (ledgers_of first.old second.old) calls.items result.items }
    ensures changes { ledgers_of first.new second.new ≡ after_all calls.items (ledgers_of first.old second.old) }
{
    for call in calls {
        outcomes.push_reserved(step(scale, first, second, call));
    }
    outcomes
}

// Makes two books of some levels and statements each, and does the calls in order. Room for the outcomes comes first: a
// run that is refused or has no memory changes nothing.
pub fn run<S: Scale>(
    heap: Global,
    scale: &S,
    first: &mut Book,
    second: &mut Book,
    first_size: Size,
    second_size: Size,
    calls: Vec<Call>,
) -> Result<Vec<Outcome>, RunError>
    ensures { Ran (S.meaning scale.now) first_size second_size calls.items (ledgers_of first.old second.old) (ledgers_of first.new second.new) result }
{
    let outcomes = Vec::with_capacity(heap, calls.len())?;
    make_both(first, second, first_size, second_size)?;
    Ok(do_all(scale, first, second, calls, outcomes))
}
