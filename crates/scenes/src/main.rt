// Reads a rule book from standard input and prints its scenes, a line each: position, rounds, degrees; and then how many
// there are. A book that is refused prints one line, with the number and the place of the fault, and on standard error
// what it means.
#![tactic(auto)]

use book::Book;
use console::{Stop, end, finish, print_fault, read_input, write_scenes};
use scale::Scale;
use text::{OnScale, Reading, read};

// The scenes of a book are printed.
#[derive(Drop)]
struct Printed<'a> {
    rt: &'a HostRuntime,
    book: &'a Book,
}

impl OnScale for Printed<'_> {
    type Answer = Result<(), Stop>;

    fn on_scale<S: Scale>(self, scale: &S) -> Result<(), Stop> {
        write_scenes(&mut self.rt.stdout(), scale, self.book)
    }
}

fn print_book(rt: &HostRuntime, reading: &Reading, book: &Book) -> Result<(), Stop> {
    reading.kind.run(reading.size, Printed { rt, book })?
}

fn run(rt: &HostRuntime) -> anyhow::Result<()> {
    let text = read_input(rt)?;
    let mut book = Book::new(rt.alloc())?;
    match read(rt.alloc(), text.as_slice(), &mut book) {
        Ok(reading) => finish(rt, print_book(rt, &reading, &book)),
        Err(fault) => print_fault(rt, "standard input", fault),
    }
}

fn main(rt: HostRuntime) -> anyhow::Result<()> {
    end(&rt, "scenes", run(&rt))
}
