// How a body and a fact are made, and a body read.
ghost use Rattle.std.specs.Prelude.{◌≡◌, [], ◌∷◌};
ghost use Rattle.scale.specs.declared.refusal.Refusal.TheVariants.{BodyTooLong};
ghost use Rattle.book.specs.Ledger.{clause};
ghost use Rattle.book.specs.Rows.{literals_of, clause_of, Built};

use super::rows::{Body, MOST_LITERALS, Rule};
use super::rule::{Head, Literal};
use scale::Refusal;

impl Body {
    pub fn new(literals: &[Literal]) -> Result<Body, Refusal>
        ensures { Built literals.now result }
    {
        if literals.len() > MOST_LITERALS {
            return Err(Refusal::BodyTooLong);
        }
        let mut row = [Literal::Plain(0); MOST_LITERALS];
        row[..literals.len()].copy_from_slice(literals);
        Ok(Body {
            literals: row,
            len: literals.len(),
        })
    }

    // The body of a fact, a rule that demands its weight.
    pub fn empty() -> Body
        ensures { literals_of result ≡ [] }
    {
        Body {
            literals: [Literal::Plain(0); MOST_LITERALS],
            len: 0,
        }
    }

    pub fn single(literal: Literal) -> Body
        ensures { literals_of result ≡ literal ∷ [] }
    {
        Body {
            literals: [literal; MOST_LITERALS],
            len: 1,
        }
    }

    pub fn literals(&self) -> &[Literal]
        ensures { result.now ≡ literals_of self.now }
    {
        &self.literals[..self.len]
    }
}

impl Rule {
    // A rule with no literals, which demands its weight.
    pub fn fact(head: Head, weight: u8) -> Rule
        ensures { clause_of result ≡ clause head weight [] }
    {
        Rule {
            head,
            weight,
            body: Body::empty(),
        }
    }
}
