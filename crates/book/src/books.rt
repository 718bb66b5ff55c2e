// The type of a book and what every book keeps.
ghost use Rattle.std.specs.Prelude.{◌≤◌, vec_len, vec_capacity};
ghost use Rattle.std.specs.List.{AllPass};
ghost use Rattle.book.specs.Rows.{kept};

use super::table::RuleTable;

// A rule book. Its rules keep within its levels and statements, and room for all the rules that it may
// ever hold is reserved when it is created, so that no later call can fail for want of memory. Contracts see
// it through `ledger_of`; it has no model, since proofs about its users read the facts that it keeps.
#[derive(Drop)]
pub struct Book {
    pub(crate) levels: u8,
    pub(crate) statements: u8,
    pub(crate) table: RuleTable,
    ghost least: { 2 ≤ levels },
    ghost most: { levels ≤ 64 },
    ghost few: { statements ≤ 16 },
    ghost short: { vec_len table.rows ≤ 64 },
    ghost room: { 64 ≤ vec_capacity table.rows },
    ghost lawful: { AllPass (kept levels statements) table.rows.items },
}
