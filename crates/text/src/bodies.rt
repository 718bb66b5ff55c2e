// The literals after a colon, parted by commas.
ghost use Rattle.std.specs.Prelude.{◌≡◌, map, IfOk};
ghost use Rattle.std.specs.Option.{option_map};
ghost use Rattle.text.specs.Tokens.{said};
ghost use Rattle.text.specs.Shapes.{seen_term};
ghost use Rattle.text.specs.Parsing.{term_of, terms_of, body_of};

use super::shapes::Term;
use super::tokens::{Mark, Token};
use std::alloc::{AllocError, Global};

fn parse_term<'a>(part: &[Token<'a>]) -> Option<Term<'a>>
    ensures { option_map seen_term result ≡ term_of (map said part.now) }
{
    match part {
        [name] => Some(Term::Plain(name.name()?)),
        [Token::Mark(Mark::Not, _), name] => Some(Term::Lacking(name.name()?)),
        [name, Token::Mark(Mark::Above, _), degree] => Some(Term::Above(
            name.name()?,
            degree.number()?,
        )),
        _ => None,
    }
}

fn parse_terms<'a>(heap: Global, tokens: &[Token<'a>]) -> Result<Option<Vec<Term<'a>>>, AllocError>
    ensures { IfOk result (λ l. option_map (λ v. map seen_term v.items) l ≡ terms_of (map said tokens.now)) }
{
    let mut terms = Vec::new(heap);
    for part in tokens.split(|token| matches!(token, Token::Mark(Mark::Comma, _))) {
        match parse_term(part) {
            Some(term) => terms.push(term)?,
            None => return Ok(None),
        }
    }
    Ok(Some(terms))
}

// Nothing, or a colon and literals.
pub(crate) fn parse_body<'a>(
    heap: Global,
    tokens: &[Token<'a>],
) -> Result<Option<Vec<Term<'a>>>, AllocError>
    ensures { IfOk result (λ l. option_map (λ v. map seen_term v.items) l ≡ body_of (map said tokens.now)) }
{
    match tokens {
        [] => Ok(Some(Vec::new(heap))),
        [Token::Mark(Mark::Colon, _), rest @ ..] => parse_terms(heap, rest),
        _ => Ok(None),
    }
}
