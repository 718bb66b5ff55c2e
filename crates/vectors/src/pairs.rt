// Pairs of books that are strongly equivalent or not.
use super::agreed;
use book::{Book, Head, MOST_STATEMENTS, Rule};
use console::Stop;
use engine::{Comparison, Which, compare};
use scale::{Refusal, Scale};
use solve::{Verdict, check};
use std::alloc::Global;
use text::{OnScale, read};

// Two books, and whether they are said to be strongly equivalent.
#[derive(Drop)]
struct Pair<'a> {
    first: &'a mut Book,
    second: &'a mut Book,
    equal: bool,
}

fn enter_all(book: &mut Book, rules: &[Rule]) -> Result<(), Refusal> {
    for rule in rules {
        book.enter(rule.head, rule.weight, rule.body.literals())?;
    }
    Ok(())
}

fn is_scene<S: Scale>(scale: &S, book: &Book, setting: &[u8]) -> Result<bool, Refusal> {
    let verdict = check(scale, book, setting)?;
    Ok(matches!(verdict, Verdict::Scene { .. }))
}

// With the addendum added to both books, is the setting a scene of the named one and not of the other?
fn told_apart<S: Scale>(
    scale: &S,
    named: &mut Book,
    other: &mut Book,
    addendum: &[Rule],
    setting: &[u8],
) -> Result<bool, Refusal> {
    enter_all(named, addendum)?;
    enter_all(other, addendum)?;
    Ok(is_scene(scale, named, setting)? && !is_scene(scale, other, setting)?)
}

impl OnScale for Pair<'_> {
    type Answer = Result<bool, Stop>;

    // Is the answer the one that is said? Where it is "unequal", the addendum and the setting have to tell the books apart.
    fn on_scale<S: Scale>(self, scale: &S) -> Result<bool, Stop> {
        let Pair {
            first,
            second,
            equal,
        } = self;
        // Arrays: books that are read are compared without asking for memory.
        let mut addendum = [Rule::fact(Head::Bound(0), 0); 2 * MOST_STATEMENTS];
        let mut row = [0; MOST_STATEMENTS];
        let setting = &mut row[..usize::from(first.statements()).min(MOST_STATEMENTS)];
        match compare(scale, first, second, &mut addendum, setting)? {
            Comparison::Equal => Ok(equal),
            Comparison::Unequal { .. } if equal => Ok(false),
            Comparison::Unequal { book, rules } => {
                let Some(added) = addendum.get(0..rules) else {
                    return Ok(false);
                };
                match book {
                    Which::First => Ok(told_apart(scale, first, second, added, setting)?),
                    Which::Second => Ok(told_apart(scale, second, first, added, setting)?),
                }
            }
        }
    }
}

pub(crate) fn agrees(
    heap: Global,
    first: &[u8],
    second: &[u8],
    equal: bool,
) -> anyhow::Result<bool> {
    let mut one = Book::new(heap)?;
    let mut two = Book::new(heap)?;
    let Ok(reading) = read(heap, first, &mut one) else {
        return Ok(false);
    };
    let Ok(other) = read(heap, second, &mut two) else {
        return Ok(false);
    };
    if (reading.kind, reading.size) != (other.kind, other.size) {
        return Ok(false);
    }
    let pair = Pair {
        first: &mut one,
        second: &mut two,
        equal,
    };
    agreed(reading.kind.run(reading.size, pair))
}
