// A session on two books: it makes them, does a list of calls on them in one run, and prints what each call answered.
#![tactic(auto)]

use anyhow::Context;
use book::{Book, Head, Literal, Rule};
use engine::{Call, Comparison, Outcome, Size, Which, run};
use scale::{Luk, Refusal};
use std::alloc::{AllocError, Global};
use std::io;

// Statement `head` demands its weight as far as statement `body` burns.
fn enter(heap: Global, book: Which, head: u8, body: u8) -> Result<Call, AllocError> {
    let body = vec![in heap; Literal::Plain(body)]?;
    Ok(Call::Enter {
        book,
        head: Head::Statement(head),
        weight: 4,
        body,
    })
}

// Two statements that hold each other up, against a book with no rule; then one rule of the first is struck.
fn calls(heap: Global) -> Result<Vec<Call>, AllocError> {
    Ok(vec![in heap;
        enter(heap, Which::First, 0, 1)?,
        enter(heap, Which::First, 1, 0)?,
        Call::Seek {
            book: Which::First,
            start: 0,
            place: vec![in heap; 9; 2]?,
        },
        Call::Seek {
            book: Which::Second,
            start: 0,
            place: vec![in heap; 9; 2]?,
        },
        Call::Compare {
            first: Which::First,
            addendum: vec![in heap; Rule::fact(Head::Bound(0), 0); 4]?,
            setting: vec![in heap; 9; 2]?,
        },
        Call::Check {
            book: Which::First,
            setting: vec![in heap; 4; 2]?,
        },
        Call::Reweigh {
            book: Which::First,
            rule: 0,
            weight: 5,
        },
        Call::Strike {
            book: Which::First,
            rule: 1,
        },
        Call::Strike {
            book: Which::First,
            rule: 1,
        },
    ]?)
}

fn print_refused(rt: &HostRuntime, word: &str, refusal: Refusal) -> io::Result<()> {
    let number = refusal.number();
    println!(rt; "{word} refused {number}")
}

fn print_outcome(rt: &HostRuntime, outcome: Outcome) -> io::Result<()> {
    match outcome {
        Outcome::Entered(Ok(())) => println!(rt; "enter"),
        Outcome::Struck(Ok(())) => println!(rt; "strike"),
        Outcome::Reweighed(Ok(())) => println!(rt; "reweigh"),
        Outcome::Checked(Ok(verdict), _) => println!(rt; "check {verdict}"),
        Outcome::Sought(Ok(Some((position, rounds))), place) => println!(rt;
            "seek {position} {rounds} {place:?}"
        ),
        Outcome::Sought(Ok(None), _) => println!(rt; "seek none"),
        Outcome::Compared(Ok(equal @ Comparison::Equal), _, _) => println!(rt; "compare {equal}"),
        Outcome::Compared(Ok(unequal), _, setting) => println!(rt; "compare {unequal} {setting:?}"),
        Outcome::Entered(Err(refusal)) => print_refused(rt, "enter", refusal),
        Outcome::Struck(Err(refusal)) => print_refused(rt, "strike", refusal),
        Outcome::Reweighed(Err(refusal)) => print_refused(rt, "reweigh", refusal),
        Outcome::Checked(Err(refusal), _) => print_refused(rt, "check", refusal),
        Outcome::Sought(Err(refusal), _) => print_refused(rt, "seek", refusal),
        Outcome::Compared(Err(refusal), _, _) => print_refused(rt, "compare", refusal),
    }
}

fn session(rt: &HostRuntime) -> anyhow::Result<()> {
    let heap = rt.alloc();
    let mut first = Book::new(heap)?;
    let mut second = Book::new(heap)?;
    let scale = Luk::new(4).context("the scale was refused")?;
    let size = Size {
        levels: 5,
        statements: 2,
    };
    let outcomes = run(
        heap,
        &scale,
        &mut first,
        &mut second,
        size,
        size,
        calls(heap)?,
    )?;
    for outcome in outcomes {
        print_outcome(rt, outcome)?;
    }
    Ok(())
}

fn main(rt: HostRuntime) -> anyhow::Result<()> {
    session(&rt)
}
