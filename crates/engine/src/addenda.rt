// Writing the addendum of two rows: the lower row as facts, and the cycle of the statements at which the rows differ.
ghost use Rattle.std.specs.Prelude.{◌≡◌, ◌*◌, ◌≤◌, map, length, take, drop};
ghost use Rattle.book.specs.Rows.{clause_of};
ghost use Rattle.theory.specs.Equivalence.{facts, differing as differing_statements, cycle, addendum as addendum_of};

use arrayvec::ArrayVec;
use book::{Body, Head, Literal, MOST_STATEMENTS, Rule};
use solve::degree;

// Writes for each statement the fact that demands its degree. By index, as the cycle below, since a proof knows nothing
// of what is written through the zip of two rows.
pub(crate) fn write_facts(row: &[u8], addendum: &mut [Rule])
    requires short { length row.now ≤ 16 }
    requires room { length row.now ≤ length addendum.old }
    ensures written { map clause_of (take (length row.now) addendum.new) ≡ facts (length row.now) row.now }
    ensures rest { drop (length row.now) addendum.new ≡ drop (length row.now) addendum.old }
    ensures size { length addendum.new ≡ length addendum.old }
{
    for (s, degree) in row.iter().enumerate() {
        addendum[s] = Rule::fact(Head::Statement(s as u8), *degree);
    }
}

// The statements at which two rows differ, in their order. By index too: with `zip` the invariant has no count to go by.
fn differing(lower: &[u8], upper: &[u8]) -> ArrayVec<u8, MOST_STATEMENTS>
    requires short { length lower.now ≤ 16 }
    requires same { length upper.now ≡ length lower.now }
    ensures { result.items ≡ differing_statements (length lower.now) lower.now upper.now }
{
    let mut statements = ArrayVec::new();
    for (s, degree) in lower.iter().enumerate() {
        if *degree != upper[s] {
            statements.push(s as u8);
        }
    }
    statements
}

// Writes the cycle of some statements: to each a link from the one before it, and to the first from the last.
fn write_cycle(lower: &[u8], upper: &[u8], statements: &[u8], addendum: &mut [Rule])
    requires room { length statements.now ≤ length addendum.old }
    ensures written { map clause_of (take (length statements.now) addendum.new) ≡ cycle lower.now upper.now statements.now }
    ensures rest { drop (length statements.now) addendum.new ≡ drop (length statements.now) addendum.old }
    ensures size { length addendum.new ≡ length addendum.old }
{
    let mut before = statements.last().copied().unwrap_or(0);
    for (i, statement) in statements.iter().enumerate() {
        addendum[i] = Rule {
            head: Head::Statement(*statement),
            weight: degree(upper, *statement),
            body: Body::single(Literal::Above(before, degree(lower, before))),
        };
        before = *statement;
    }
}

// Writes the addendum of two rows, and answers how many rules it has. The rows and the place have one caller, so no type
// holds the three.
pub(crate) fn write_addendum(lower: &[u8], upper: &[u8], addendum: &mut [Rule]) -> usize
    requires short { length lower.now ≤ 16 }
    requires same { length upper.now ≡ length lower.now }
    requires room { 2 * length lower.now ≤ length addendum.old }
    ensures count { result ≡ length (addendum_of (length lower.now) lower.now upper.now) }
    ensures written { map clause_of (take result addendum.new) ≡ addendum_of (length lower.now) lower.now upper.now }
    ensures rest { drop result addendum.new ≡ drop result addendum.old }
    ensures size { length addendum.new ≡ length addendum.old }
    ensures few { result ≤ 2 * length lower.now }
{
    let statements = differing(lower, upper);
    let (facts, links) = addendum.split_at_mut(lower.len());
    write_facts(lower, facts);
    write_cycle(lower, upper, &statements, links);
    lower.len() + statements.len()
}
