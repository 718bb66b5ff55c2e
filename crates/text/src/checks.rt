// What is tested of a line before it is read: its bytes first, then its numbers, then its shape.
ghost use Rattle.std.specs.Prelude.{◌≡◌, map, Ok, Err, MatchResult};
ghost use Rattle.std.specs.List.{list_all};
ghost use Rattle.std.specs.Option.{option_map};
ghost use Rattle.text.specs.Tokens.{said, short};
ghost use Rattle.text.specs.Shapes.{seen_line};
ghost use Rattle.text.specs.Meaning.{is_space, unlettered, told};

use super::bytes::all_allowed;
use super::faults::{LineFault, Place, TextFault};
use super::shapes::Line;
use super::tokens::Token;

pub(crate) fn is_blank(line: &[u8]) -> bool
    ensures { result ≡ list_all is_space line.now }
{
    line.iter().all(|b| *b == b' ')
}

// Is every number short?
fn all_short(tokens: &[Token]) -> bool
    ensures { result ≡ list_all short (map said tokens.now) }
{
    tokens.iter().all(|token| token.is_short())
}

// A bad byte anywhere in the line comes before a long number anywhere in it.
fn check_letters(line: &[u8], tokens: &[Token], place: Place) -> Result<(), TextFault>
    ensures { result ≡ unlettered line.now (map said tokens.now) place }
{
    if !all_allowed(line) {
        return Err(TextFault::BadByte(place));
    }
    if !all_short(tokens) {
        return Err(TextFault::LongNumber(place));
    }
    Ok(())
}

// What the line says, by its tokens and the shape that was found for them.
pub(crate) fn check_line<'a>(
    line: &[u8],
    tokens: &[Token],
    shape: Option<Line<'a>>,
    place: Place,
) -> Result<Line<'a>, LineFault>
    ensures { MatchResult result (λ l. told line.now (map said tokens.now) (option_map seen_line shape.entry) place ≡ Ok (seen_line l)) (λ e. told line.now (map said tokens.now) (option_map seen_line shape.entry) place ≡ Err e) }
{
    check_letters(line, tokens, place)?;
    shape.ok_or(LineFault::Shape(place))
}
