// The rows of a book's rules, with no rule about them: the book keeps those.
ghost use Rattle.std.specs.Prelude.{◌≡◌, ◌<◌, vec_len, vec_capacity, slice_index_or, slice_set};
ghost use Rattle.book.specs.Rows.{row_reweighed};

use super::rows::Rule;

#[derive(Drop)]
pub struct RuleTable {
    pub(crate) rows: Vec<Rule>,
}

impl RuleTable {
    // Changes the weight in row i, which is lent for that and comes back; the other rows stay.
    pub(crate) fn reweigh(&mut self, i: usize, weight: u8)
        requires { i < vec_len self.old.rows }
        ensures rows { (d : Rule) → self.new.rows.items ≡ slice_set self.old.rows.items i (row_reweighed weight (slice_index_or self.old.rows.items i d)) }
        ensures len { vec_len self.new.rows ≡ vec_len self.old.rows }
        ensures capacity { vec_capacity self.new.rows ≡ vec_capacity self.old.rows }
    {
        set_weight(&mut self.rows[i], weight);
    }
}

fn set_weight(row: &mut Rule, weight: u8)
    ensures { row.new ≡ row_reweighed weight row.old }
{
    row.weight = weight;
}
