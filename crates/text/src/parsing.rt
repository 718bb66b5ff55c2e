// Lines are told by their shape. Memory and tokens stay two parameters, since each parser hands on another part of the
// tokens.
ghost use Rattle.std.specs.Prelude.{◌≡◌, map, IfOk};
ghost use Rattle.std.specs.Option.{option_map};
ghost use Rattle.text.specs.Tokens.{said};
ghost use Rattle.text.specs.Shapes.{seen_lead, seen_line};
ghost use Rattle.text.specs.Parsing.{line_of, line_by, scale_line_of, name_line_of, rule_line_of, bound_line_of, rule_with};

use super::bodies::parse_body;
use super::shapes::{Lead, Line};
use super::tokens::Token;
use std::alloc::{AllocError, Global};

// What a line says, or nothing where it has no shape.
pub(crate) fn parse_line<'a>(
    heap: Global,
    tokens: &[Token<'a>],
) -> Result<Option<Line<'a>>, AllocError>
    ensures { IfOk result (λ l. option_map seen_line l ≡ line_of (map said tokens.now)) }
{
    match tokens {
        [Token::Word(verb, _), rest @ ..] => parse_by(heap, verb, rest),
        _ => Ok(None),
    }
}

// What a line says whose first word is this, by what follows it.
fn parse_by<'a>(
    heap: Global,
    verb: &[u8],
    tokens: &[Token<'a>],
) -> Result<Option<Line<'a>>, AllocError>
    ensures { IfOk result (λ l. option_map seen_line l ≡ line_by verb.now (map said tokens.now)) }
{
    // One test after another: in a `match` on the four words the last arm did not prove.
    if verb == b"scale".as_slice() {
        Ok(parse_scale(tokens))
    } else if verb == b"name".as_slice() {
        Ok(parse_name(tokens))
    } else if verb == b"rule".as_slice() {
        parse_rule(heap, tokens)
    } else if verb == b"bound".as_slice() {
        parse_bound(heap, tokens)
    } else {
        Ok(None)
    }
}

fn parse_scale<'a>(tokens: &[Token<'a>]) -> Option<Line<'a>>
    ensures { option_map seen_line result ≡ scale_line_of (map said tokens.now) }
{
    match tokens {
        [kind, size] => Some(Line::Scale(kind.kind()?, size.number()?)),
        _ => None,
    }
}

fn parse_name<'a>(tokens: &[Token<'a>]) -> Option<Line<'a>>
    ensures { option_map seen_line result ≡ name_line_of (map said tokens.now) }
{
    match tokens {
        [name] => Some(Line::Name(name.name()?)),
        _ => None,
    }
}

fn parse_rule<'a>(heap: Global, tokens: &[Token<'a>]) -> Result<Option<Line<'a>>, AllocError>
    ensures { IfOk result (λ l. option_map seen_line l ≡ rule_line_of (map said tokens.now)) }
{
    match tokens {
        [weight, head, rest @ ..] => rule_with(
            heap,
            head.name().map(Lead::Statement),
            weight.number(),
            rest,
        ),
        _ => Ok(None),
    }
}

fn parse_bound<'a>(heap: Global, tokens: &[Token<'a>]) -> Result<Option<Line<'a>>, AllocError>
    ensures { IfOk result (λ l. option_map seen_line l ≡ bound_line_of (map said tokens.now)) }
{
    match tokens {
        [degree, weight, rest @ ..] => rule_with(
            heap,
            degree.number().map(Lead::Bound),
            weight.number(),
            rest,
        ),
        _ => Ok(None),
    }
}

// A rule, where its lead, its weight and its body are all there.
fn rule_with<'a>(
    heap: Global,
    lead: Option<Lead<'a>>,
    weight: Option<&'a [u8]>,
    body: &[Token<'a>],
) -> Result<Option<Line<'a>>, AllocError>
    ensures { IfOk result (λ l. option_map seen_line l ≡ rule_with (option_map seen_lead lead.entry) (option_map (λ x. x.now) weight.entry) (map said body.now)) }
{
    let (Some(lead), Some(weight)) = (lead, weight) else {
        return Ok(None);
    };
    // A match, since what `map` would answer did not prove.
    match parse_body(heap, body)? {
        Some(body) => Ok(Some(Line::Rule(lead, weight, body))),
        None => Ok(None),
    }
}
