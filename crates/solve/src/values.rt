// What literals, bodies and rules are worth at a lower and an upper row of degrees.
ghost use Rattle.std.specs.Prelude.{◌≡◌, ◌<◌, true};
ghost use Rattle.std.specs.List.{list_all};
ghost use Rattle.scale.specs.Meaning.{top};
ghost use Rattle.book.specs.Ledger.{literal_fits, fits};
ghost use Rattle.book.specs.Rows.{clause_of};
ghost use Rattle.theory.specs.Semantics.{at, value, body_value, yield, holds, head_value, share};
ghost use Rattle.solve.specs.Ready.{Degrees};

use book::{Head, Literal, Rule};
use scale::Scale;

// The degree of a statement; past the end of the row, 0.
pub fn degree(row: &[u8], statement: u8) -> u8
    ensures { result ≡ at row.now statement }
{
    row.get(usize::from(statement)).copied().unwrap_or(0)
}

// A scale and the two rows at which rules are valued on it. Its answers are the meaning's wherever the rows and the rule
// have degrees of the scale only. It is made where it is used: in closures a method that made it did not prove, and elsewhere
// it is one literal.
#[derive(Drop)]
pub(crate) struct Valuation<'a, S: Scale> {
    pub(crate) scale: &'a S,
    pub(crate) lower: &'a [u8],
    pub(crate) upper: &'a [u8],
}

impl<'a, S: Scale> Valuation<'a, S> {
    ghost use Rattle.solve.specs.Valuations.{Valued, lower_of, upper_of};

    fn top(&self) -> u8
        ensures { result ≡ top (S.meaning self.now.scale.now) }
    {
        self.scale.levels().saturating_sub(1)
    }

    fn literal(&self, literal: Literal) -> u8
        ensures { Valued (S.meaning self.now.scale.now) self.now → literal_fits (S.meaning self.now.scale.now).levels literal ≡ true → result ≡ value (S.meaning self.now.scale.now) (lower_of self.now) (upper_of self.now) literal }
    {
        match literal {
            Literal::Plain(s) => degree(self.lower, s),
            Literal::Above(s, d) => {
                if self.scale.below(degree(self.lower, s), d) {
                    0
                } else {
                    self.top()
                }
            }
            Literal::Lacking(s) => self.scale.lack(degree(self.upper, s)),
        }
    }

    // The product of a degree and a body.
    fn times_body(&self, start: u8, body: &[Literal]) -> u8
        ensures { Valued (S.meaning self.now.scale.now) self.now → start < (S.meaning self.now.scale.now).levels → list_all (literal_fits (S.meaning self.now.scale.now).levels) body.now ≡ true → result ≡ (S.meaning self.now.scale.now).product start (body_value (S.meaning self.now.scale.now) (lower_of self.now) (upper_of self.now) body.now) }
    {
        body.iter().fold(start, |product, literal| {
            self.scale.product(product, self.literal(*literal))
        })
    }

    // The degree of a head; a bound is its own.
    fn head(&self, head: Head) -> u8
        ensures { result ≡ head_value (lower_of self.now) head }
    {
        match head {
            Head::Statement(s) => degree(self.lower, s),
            Head::Bound(d) => d,
        }
    }

    // How far a rule demands its head.
    pub(crate) fn rule_yield(&self, rule: &Rule) -> u8
        ensures { Valued (S.meaning self.now.scale.now) self.now → fits (S.meaning self.now.scale.now).levels (clause_of rule.now) ≡ true → result ≡ yield (S.meaning self.now.scale.now) (lower_of self.now) (upper_of self.now) (clause_of rule.now) }
    {
        self.times_body(rule.weight, rule.body.literals())
    }

    // Is the rule's yield below its head?
    pub(crate) fn rule_holds(&self, rule: &Rule) -> bool
        ensures { Valued (S.meaning self.now.scale.now) self.now → fits (S.meaning self.now.scale.now).levels (clause_of rule.now) ≡ true → result ≡ holds (S.meaning self.now.scale.now) (lower_of self.now) (upper_of self.now) (clause_of rule.now) }
    {
        self.scale
            .below(self.rule_yield(rule), self.head(rule.head))
    }

    // What a rule demands of a statement: its yield where the statement is its head, otherwise nothing.
    pub(crate) fn rule_share(&self, rule: &Rule, statement: usize) -> u8
        ensures { Valued (S.meaning self.now.scale.now) self.now → fits (S.meaning self.now.scale.now).levels (clause_of rule.now) ≡ true → result ≡ share (S.meaning self.now.scale.now) (lower_of self.now) (upper_of self.now) (clause_of rule.now) statement }
    {
        match rule.head {
            Head::Statement(s) if usize::from(s) == statement => self.rule_yield(rule),
            _ => 0,
        }
    }

    // The residuum of a rule's body and head.
    pub(crate) fn rule_residuum(&self, rule: &Rule) -> u8
        ensures { Valued (S.meaning self.now.scale.now) self.now → fits (S.meaning self.now.scale.now).levels (clause_of rule.now) ≡ true → result ≡ (S.meaning self.now.scale.now).residuum (body_value (S.meaning self.now.scale.now) (lower_of self.now) (upper_of self.now) (clause_of rule.now).body) (head_value (lower_of self.now) rule.now.head) }
    {
        let body = self.times_body(self.top(), rule.body.literals());
        self.scale.residuum(body, self.head(rule.head))
    }
}

// Does the rule hold: is its yield below its head, or below its bound? That is what is answered wherever the rows and the
// rule have degrees of the scale only.
pub fn rule_holds<S: Scale>(scale: &S, rule: &Rule, lower: &[u8], upper: &[u8]) -> bool
    ensures { Degrees (S.meaning scale.now) lower.now → Degrees (S.meaning scale.now) upper.now → fits (S.meaning scale.now).levels (clause_of rule.now) ≡ true → result ≡ holds (S.meaning scale.now) (at lower.now) (at upper.now) (clause_of rule.now) }
{
    let valuation = Valuation {
        scale,
        lower,
        upper,
    };
    valuation.rule_holds(rule)
}
