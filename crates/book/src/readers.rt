// What a book shows.
ghost use Rattle.std.specs.Prelude.{◌≡◌, map, length};
ghost use Rattle.book.specs.Rows.{clause_of};
ghost use Rattle.book.specs.View.{ledger_of, Shown};

use super::books::Book;
use super::rows::Rule;
use scale::Refusal;

impl Book {
    pub fn levels(&self) -> u8
        ensures { result ≡ (ledger_of self.now).levels }
    {
        self.levels
    }

    pub fn statements(&self) -> u8
        ensures { result ≡ (ledger_of self.now).statements }
    {
        self.statements
    }

    pub fn rule_count(&self) -> usize
        ensures { result ≡ length (ledger_of self.now).rules }
    {
        self.table.rows.len()
    }

    // Rule i, or a refusal where there is none.
    pub fn rule(&self, i: usize) -> Result<Rule, Refusal>
        ensures { Shown (ledger_of self.now) i result }
    {
        self.table.rows.get(i).copied().ok_or(Refusal::NoSuchRule)
    }

    // All rules, in their order.
    pub fn rules(&self) -> &[Rule]
        ensures { map clause_of result.now ≡ (ledger_of self.now).rules }
    {
        self.table.rows.as_slice()
    }
}
