// Runs the engine over the cases of three files, whose answers other programs have found, and of three with wrong answers,
// and prints of each file how many of its cases agree. A case that cannot be parsed does not.
#![tactic(auto)]

mod books;
mod cases;
mod pairs;
mod sections;
mod texts;

use cases::{Case, FILES, File, Kind};
use console::Stop;
use scale::Refusal;
use sections::{Section, cut, without_end};
use std::alloc::Global;
use std::io;

// The most cases of a file that are named.
const MOST_NAMED: usize = 10;

// How much of a heading is printed; a text's is the text itself.
const MOST_SHOWN: usize = 80;

// Whether a case agrees, by what its task answered: a case whose size or books are refused does not.
fn agreed(answer: Result<Result<bool, Stop>, Refusal>) -> anyhow::Result<bool> {
    match answer {
        Ok(Ok(agrees)) => Ok(agrees),
        Ok(Err(Stop::Failed(error))) => Err(error),
        Ok(Err(Stop::Refused(_))) | Err(_) => Ok(false),
    }
}

fn case_agrees(heap: Global, kind: Kind, sections: &[Section]) -> anyhow::Result<bool> {
    match kind.parse(sections) {
        Some(Case::Book { text, lines }) => books::agrees(heap, text, lines),
        Some(Case::Text { hex, verdict }) => Ok(texts::agrees(heap, hex, verdict)?),
        Some(
            Case::Pair {
                first,
                second,
                equal,
            },
        ) => pairs::agrees(heap, first, second, equal),
        None => Ok(false),
    }
}

// A case is named by the front of its first heading.
fn name_of<'a>(case: &[Section<'a>]) -> &'a str {
    let Some(section) = case.first() else {
        return "";
    };
    let heading = section.heading;
    let shown = heading.get(0..MOST_SHOWN).unwrap_or(heading);
    std::str::from_utf8(shown).unwrap_or("")
}

// The names of the cases that disagree. A case has as many sections as its kind says; the last one may lack some.
fn disagreeing<'a>(
    heap: Global,
    kind: Kind,
    sections: &[Section<'a>],
) -> anyhow::Result<Vec<&'a str>> {
    let mut names = Vec::new(heap);
    for case in sections.chunks(kind.parts()) {
        if !case_agrees(heap, kind, case)? {
            names.push(name_of(case))?;
        }
    }
    Ok(names)
}

// Names the first cases that disagree, and prints how many agree.
fn report(rt: &HostRuntime, file: &File, cases: usize, disagreeing: &[&str]) -> io::Result<()> {
    let words = file.words;
    for name in disagreeing.iter().take(MOST_NAMED) {
        println!(rt; "{words}: {name} disagrees")?;
    }
    let agreeing = cases.saturating_sub(disagreeing.len());
    println!(rt; "{words} {agreeing} of {cases} agree")
}

fn run_file(rt: &HostRuntime, file: &File) -> anyhow::Result<()> {
    let bytes = std::fs::read(rt, file.path)?;
    let sections = cut(rt.alloc(), without_end(bytes.as_slice()))?;
    let names = disagreeing(rt.alloc(), file.kind, sections.as_slice())?;
    let cases = sections.len().div_ceil(file.kind.parts());
    report(rt, file, cases, names.as_slice())?;
    Ok(())
}

fn main(rt: HostRuntime) -> anyhow::Result<()> {
    for file in &FILES {
        run_file(&rt, file)?;
    }
    Ok(())
}
