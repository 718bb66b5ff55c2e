// Lines of output, and refusals: the line goes to standard output, and what it means to standard error.
ghost use Rattle.std.specs.Prelude.{◌≡◌, IsUtf8};
ghost use Rattle.console.specs.declared.prints.Stop.TheVariants.{Refused, Failed};

use anyhow::anyhow;
use output::{LEAST_PLACE, Line, write_line};
use scale::Refusal;
use std::alloc::AllocError;
use std::io::Write;
use text::ReadFault;

// Why a program's work stopped: the engine refused it, or something outside failed.
#[derive(Drop)]
pub enum Stop {
    Refused(Refusal),
    Failed(anyhow::Error),
}

impl From<Refusal> for Stop {
    ghost from_gives = { λ e r. r ≡ Refused e };

    fn from(refusal: Refusal) -> Stop {
        Stop::Refused(refusal)
    }
}

impl From<AllocError> for Stop {
    ghost from_gives = { λ _ r. (error : _) × (r ≡ Failed error) };

    fn from(error: AllocError) -> Stop {
        Stop::Failed(error.into())
    }
}

impl From<anyhow::Error> for Stop {
    ghost from_gives = { λ e r. r ≡ Failed e };

    fn from(error: anyhow::Error) -> Stop {
        Stop::Failed(error)
    }
}

// A line of output goes out whole, or the failure is handed on. It is put into an array first, since `write_line` writes to
// its caller's place.
pub fn print_line(out: &mut impl Write, line: &Line) -> anyhow::Result<()> {
    let mut place = [0; LEAST_PLACE];
    match write_line(line, &mut place) {
        Ok(length) if length <= LEAST_PLACE => {
            out.write_all(&place[0..length])?;
            Ok(())
        }
        _ => Err(anyhow!("a line could not be written")),
    }
}

// Prints some bytes of text and ends the line.
pub fn print_text(rt: &HostRuntime, text: &[u8]) -> anyhow::Result<()> {
    rt.stdout().write_all(text)?;
    rt.stdout().write_all(b"\n")?;
    Ok(())
}

// Bytes of a text as text. A name is made of letters, digits and underscores, so it always is text.
pub fn shown(bytes: &[u8]) -> &str
    ensures { IsUtf8 bytes.now → result.now ≡ bytes.now }
{
    std::str::from_utf8(bytes).unwrap_or("?")
}

fn print_refused(rt: &HostRuntime, number: u8, line: usize, byte: usize) -> anyhow::Result<()> {
    let refused = Line::refused_at(number, line, byte);
    print_line(&mut rt.stdout(), &refused)
}

// Prints why the text from some source was refused.
pub fn print_fault(rt: &HostRuntime, source: &str, fault: ReadFault) -> anyhow::Result<()> {
    if let ReadFault::NoMemory = fault {
        return Err(anyhow::Error::from(fault));
    }
    let line = fault.line();
    print_refused(rt, fault.number(), line, fault.byte())?;
    // The answer stands on standard output; that its meaning could not be told besides is no failure.
    let _ = eprintln!(rt; "{source}, line {line}: {fault}");
    Ok(())
}

// What is left to do after the work: a refusal of the engine is printed, and any other failure handed on.
pub fn finish(rt: &HostRuntime, work: Result<(), Stop>) -> anyhow::Result<()> {
    match work {
        Ok(()) => Ok(()),
        Err(Stop::Refused(refusal)) => {
            print_refused(rt, refusal.number(), 0, 0)?;
            let _ = eprintln!(rt; "{refusal}");
            Ok(())
        }
        Err(Stop::Failed(error)) => Err(error),
    }
}

// What a program ends with: a failure is handed to `main` under the program's name, and `main` tells it on standard error
// and ends with status 1.
pub fn end(rt: &HostRuntime, program: &str, res: anyhow::Result<()>) -> anyhow::Result<()> {
    match res {
        Ok(()) => Ok(()),
        // A match, since the message needs memory. One line with its causes: a context would be told with each cause on a line
        // of its own.
        Err(error) => Err(anyhow!(format!(in rt.alloc(); "{program}: {error:#}")?)),
    }
}
