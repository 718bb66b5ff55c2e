// Judges a setting of the rule book in a file: whether it is a scene, breaks a rule, or has a statement that the rules do
// not support; and then, for the fitter, which rule or statement that is and by how much.
#![tactic(auto)]

mod judging;

use anyhow::anyhow;
use book::Book;
use console::{Stop, end, finish, print_fault, read_file};
use judging::Judging;
use std::alloc::Global;
use std::env;
use text::{Named, read_named};

// The degrees that the arguments give. A number over 255, as far as a `u32` has it, is handed on as 255, which every book
// refuses alike.
fn degrees(heap: Global, arguments: &[String]) -> anyhow::Result<Vec<u8>> {
    let mut setting = Vec::new(heap);
    for argument in arguments {
        let Ok(degree) = argument.as_str().parse::<u32>() else {
            return Err(anyhow!(format!(in heap; "{argument} is no degree")?));
        };
        setting.push(degree.min(255) as u8)?;
    }
    Ok(setting)
}

fn judge_book(rt: &HostRuntime, named: &Named, book: &Book, setting: &[u8]) -> Result<(), Stop> {
    let reading = named.reading;
    let judging = Judging {
        rt,
        book,
        names: named.names.as_slice(),
        setting,
    };
    reading.kind.run(reading.size, judging)?
}

fn run(rt: &HostRuntime) -> anyhow::Result<()> {
    let heap = rt.alloc();
    let arguments: Vec<String> = env::args(rt)?.collect(heap)?;
    let [_, path, rest @ ..] = arguments.as_slice() else {
        return Err(anyhow!("usage: judge BOOK DEGREE .."));
    };
    let setting = degrees(heap, rest)?;
    let text = read_file(rt, path.as_str())?;
    let mut book = Book::new(heap)?;
    match read_named(heap, text.as_slice(), &mut book) {
        Ok(named) => finish(rt, judge_book(rt, &named, &book, setting.as_slice())),
        Err(fault) => print_fault(rt, path.as_str(), fault),
    }
}

fn main(rt: HostRuntime) -> anyhow::Result<()> {
    end(&rt, "judge", run(&rt))
}
