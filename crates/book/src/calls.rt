// The calls on a book. Each tests its causes of refusal in order; a refusal changes nothing.
ghost use Rattle.std.specs.Prelude.{◌≡◌, IfOk};
ghost use Rattle.scale.specs.Causes.{answered};
ghost use Rattle.book.specs.Ledger.{clause, literal_known, literal_fits};
ghost use Rattle.std.specs.List.{list_all};
ghost use Rattle.book.specs.Calls.{empty, make_refusal, remade, enter_refusal, entered, strike_refusal, struck, reweigh_refusal, reweighed};
ghost use Rattle.book.specs.Admission.{Admitted};
ghost use Rattle.book.specs.View.{ledger_of};

use super::books::Book;
use super::rows::{Body, MOST_STATEMENTS, Rule};
use super::rule::{Head, Literal};
use super::table::RuleTable;
use scale::Refusal;
use std::alloc::{AllocError, Global};

// The most rules that a book may have.
const MOST_RULES: usize = 64;

// May a book be made of these levels and statements? The two go together here and in `make` alone, so they have no type.
pub fn allowed_size(levels: u8, statements: u8) -> Result<(), Refusal>
    ensures { result ≡ answered (make_refusal levels statements) tt }
{
    if !(2..=64).contains(&levels) || usize::from(statements) > MOST_STATEMENTS {
        return Err(Refusal::BookSize);
    }
    Ok(())
}

// Why a book cannot be made of these levels and statements.
pub fn size_refusal(levels: u8, statements: u8) -> Option<Refusal>
    ensures { result ≡ make_refusal levels statements }
{
    allowed_size(levels, statements).err()
}

impl Book {
    // A book of 2 levels with no statement and no rule. Only this call can fail for want of memory.
    pub fn new(heap: Global) -> Result<Book, AllocError>
        ensures { IfOk result (λ b. ledger_of b ≡ empty 2 0) }
    {
        let rows = Vec::with_capacity(heap, MOST_RULES)?;
        Ok(Book {
            levels: 2,
            statements: 0,
            table: RuleTable { rows },
        })
    }

    // Gives the book new levels and statements, and no rules.
    pub fn make(&mut self, levels: u8, statements: u8) -> Result<(), Refusal>
        ensures answer { result ≡ answered (make_refusal levels statements) tt }
        ensures after { ledger_of self.new ≡ remade (ledger_of self.old) levels statements }
    {
        allowed_size(levels, statements)?;
        self.table.rows.clear();
        self.levels = levels;
        self.statements = statements;
        Ok(())
    }

    // Takes rule i out; the later rules move down by one.
    pub fn strike(&mut self, i: usize) -> Result<(), Refusal>
        ensures answer { result ≡ answered (strike_refusal (ledger_of self.old) i) tt }
        ensures after { ledger_of self.new ≡ struck (ledger_of self.old) i }
    {
        if i >= self.table.rows.len() {
            return Err(Refusal::NoSuchRule);
        }
        self.table.rows.remove(i);
        Ok(())
    }

    // Changes the weight of rule i, and nothing else.
    pub fn reweigh(&mut self, i: usize, weight: u8) -> Result<(), Refusal>
        ensures answer { result ≡ answered (reweigh_refusal (ledger_of self.old) i weight) tt }
        ensures after { ledger_of self.new ≡ reweighed (ledger_of self.old) i weight }
    {
        if weight >= self.levels {
            return Err(Refusal::DegreeTooHigh);
        }
        if i >= self.table.rows.len() {
            return Err(Refusal::NoSuchRule);
        }
        self.table.reweigh(i, weight);
        Ok(())
    }

    // Puts a rule at the end of the list. The body may have any length; a book takes at most four literals.
    pub fn enter(&mut self, head: Head, weight: u8, body: &[Literal]) -> Result<(), Refusal>
        ensures answer { result ≡ answered (enter_refusal (ledger_of self.old) (clause head weight body.now)) tt }
        ensures after { ledger_of self.new ≡ entered (ledger_of self.old) (clause head weight body.now) }
    {
        let rule = self.admit(head, weight, body)?;
        if self.table.rows.len() >= MOST_RULES {
            return Err(Refusal::BookFull);
        }
        self.table.rows.push_reserved(rule);
        Ok(())
    }

    // The row of a rule that keeps within this book's levels and statements.
    fn admit(&self, head: Head, weight: u8, body: &[Literal]) -> Result<Rule, Refusal>
        ensures { Admitted self.now.levels self.now.statements (clause head weight body.now) result }
    {
        if !(head.known(self.statements) && all_known(body, self.statements)) {
            return Err(Refusal::UnknownStatement);
        }
        if !(weight < self.levels && head.fits(self.levels) && all_fit(body, self.levels)) {
            return Err(Refusal::DegreeTooHigh);
        }
        let body = Body::new(body)?;
        Ok(Rule { head, weight, body })
    }
}

// Does every literal name only statements below `statements`? The chain stands in a function of its own, and the next
// one too, since what a chain in `admit` answered would not be known there further on.
fn all_known(body: &[Literal], statements: u8) -> bool
    ensures { result ≡ list_all (literal_known statements) body.now }
{
    body.iter().all(|literal| literal.known(statements))
}

// Has every literal only degrees below `levels`?
fn all_fit(body: &[Literal], levels: u8) -> bool
    ensures { result ≡ list_all (literal_fits levels) body.now }
{
    body.iter().all(|literal| literal.fits(levels))
}
