// Compares the rule books in two files: whether they have the same scenes whatever rules are added to both; and where
// they do not, rules and a setting that tell them apart.
#![tactic(auto)]

mod comparing;

use anyhow::anyhow;
use book::Book;
use comparing::Comparing;
use console::{Stop, end, finish, print_fault, read_file};
use std::alloc::Global;
use std::env;
use text::{Named, ReadFault, read_named};

// A book that was read, with what its text says beside its rules.
#[derive(Drop)]
struct NamedBook<'a> {
    book: Book,
    named: Named<'a>,
}

fn compare_on_scale(rt: &HostRuntime, first: &NamedBook, second: &NamedBook) -> Result<(), Stop> {
    let reading = first.named.reading;
    let comparing = Comparing {
        rt,
        first: &first.book,
        second: &second.book,
        names: first.named.names.as_slice(),
    };
    reading.kind.run(reading.size, comparing)?
}

// Do the names agree, statement by statement, as far as both books have one?
fn same_names(first: &[&[u8]], second: &[&[u8]]) -> bool {
    first.iter().zip(second.iter()).all(|(a, b)| *a == *b)
}

// Compares two books that were read. Statements are matched by their numbers, so their names must agree.
fn compare_books(rt: &HostRuntime, first: &NamedBook, second: &NamedBook) -> anyhow::Result<()> {
    let a = first.named.reading;
    let b = second.named.reading;
    if (a.kind, a.size) != (b.kind, b.size) {
        return Err(anyhow!("the books have different scale lines"));
    }
    if !same_names(first.named.names.as_slice(), second.named.names.as_slice()) {
        return Err(anyhow!("the books have different names for a statement of the same number"));
    }
    finish(rt, compare_on_scale(rt, first, second))
}

fn read_book<'a>(heap: Global, text: &'a [u8], mut book: Book) -> Result<NamedBook<'a>, ReadFault> {
    let named = read_named(heap, text, &mut book)?;
    Ok(NamedBook { book, named })
}

fn compare_files(rt: &HostRuntime, first_path: &str, second_path: &str) -> anyhow::Result<()> {
    let heap = rt.alloc();
    let first_text = read_file(rt, first_path)?;
    let second_text = read_file(rt, second_path)?;
    let first_book = Book::new(heap)?;
    let second_book = Book::new(heap)?;
    let first = match read_book(heap, first_text.as_slice(), first_book) {
        Ok(first) => first,
        Err(fault) => return print_fault(rt, first_path, fault),
    };
    match read_book(heap, second_text.as_slice(), second_book) {
        Ok(second) => compare_books(rt, &first, &second),
        Err(fault) => print_fault(rt, second_path, fault),
    }
}

fn run(rt: &HostRuntime) -> anyhow::Result<()> {
    let arguments: Vec<String> = env::args(rt)?.collect(rt.alloc())?;
    let [_, first, second] = arguments.as_slice() else {
        return Err(anyhow!("usage: compare BOOK BOOK"));
    };
    compare_files(rt, first.as_str(), second.as_str())
}

fn main(rt: HostRuntime) -> anyhow::Result<()> {
    end(&rt, "compare", run(&rt))
}
