// The lines of output.
ghost use Rattle.std.specs.Prelude.{◌≡◌, ◌≤◌, true, length, take, IfOk};
ghost use Rattle.scale.specs.Causes.{answered};
ghost use Rattle.output.specs.Reading.{numbers_in};
ghost use Rattle.output.specs.Spelling.{spelled, numbers_of, degrees_of};
ghost use Rattle.output.specs.Writing.{all_degrees, refusal_of, written};

use super::texts::{Text, push_degrees, push_number};
use scale::Refusal;

// The highest degree of any scale.
const MOST_DEGREE: u8 = 63;

// The most degrees that a scene has: as many as a book has statements. Written again, since one number is no reason to
// depend on `book`.
const MOST_DEGREES: usize = 16;

// The least place that is taken, whatever the line: each line fits it.
pub const LEAST_PLACE: usize = 96;

// What a line tells. No number is too large for its line: a scene's has at most 80 bytes, the count's 28 and a refusal's 64.
#[derive(Clone, Copy, Debug, PartialEq, Eq)]
pub enum Line<'a> {
    Scene {
        position: u64,
        rounds: u32,
        degrees: &'a [u8],
    },
    Count(u64),
    // The number is the one that is printed: any may be given, and a fault of reading, which no enum here has, gives its own.
    Refused {
        number: u8,
        line: usize,
        byte: usize,
    },
}

impl<'a> Line<'a> {
    // The line that ends a run.
    pub fn count_of(scenes: u64) -> Line<'a>
        ensures { result ≡ Line.Count scenes }
    {
        Line::Count(scenes)
    }

    // The line of a refusal.
    pub fn refused_at(number: u8, line: usize, byte: usize) -> Line<'a>
        ensures { result ≡ Line.Refused number line byte }
    {
        Line::Refused { number, line, byte }
    }

    fn degrees(&self) -> &'a [u8]
        ensures { result.now ≡ degrees_of self.now }
    {
        match *self {
            Line::Scene { degrees, .. } => degrees,
            _ => &[],
        }
    }

    fn text(&self) -> Text
        requires { length (degrees_of self.now) ≤ 16 }
        ensures bytes { result.bytes ≡ spelled self.now }
        ensures read_back { all_degrees (degrees_of self.now) ≡ true → numbers_in (spelled self.now) ≡ numbers_of self.now }
    {
        let mut text = Text::new();
        match *self {
            Line::Scene {
                position,
                rounds,
                degrees,
            } => {
                push_number(&mut text, position);
                text.push_str(" ");
                push_number(&mut text, rounds);
                push_degrees(&mut text, degrees);
            }
            Line::Count(count) => {
                text.push_str("scenes ");
                push_number(&mut text, count);
            }
            Line::Refused { number, line, byte } => {
                text.push_str("refused ");
                push_number(&mut text, number);
                text.push_str(" line ");
                push_number(&mut text, line);
                text.push_str(" byte ");
                push_number(&mut text, byte);
            }
        }
        text.push_str("\n");
        text
    }
}

// Writes a line to the front of a place and answers its length; a refusal leaves the place as it was.
pub fn write_line(line: &Line, place: &mut [u8]) -> Result<usize, Refusal>
    ensures answer { result ≡ answered (refusal_of line.now place.old) (length (spelled line.now)) }
    ensures after { place.new ≡ written line.now place.old }
    ensures read_back { IfOk result (λ n. numbers_in (take n place.new) ≡ numbers_of line.now) }
{
    let degrees = line.degrees();
    if !all_degrees(degrees) {
        return Err(Refusal::DegreeTooHigh);
    }
    if degrees.len() > MOST_DEGREES || place.len() < LEAST_PLACE {
        return Err(Refusal::PlaceLength);
    }
    let text = line.text();
    place[..text.len()].copy_from_slice(text.as_bytes());
    Ok(text.len())
}

// Can a scale have each of these degrees?
fn all_degrees(degrees: &[u8]) -> bool
    ensures { result ≡ all_degrees degrees.now }
{
    degrees.iter().all(|degree| *degree <= MOST_DEGREE)
}
