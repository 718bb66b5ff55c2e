// A rule as a book keeps it: its body inline, so that rows lie side by side and copying one needs no memory.
ghost use Rattle.std.specs.Prelude.{◌≤◌};

use super::rule::{Head, Literal};

// The most statements that a book may have, and so the longest row of degrees.
pub const MOST_STATEMENTS: usize = 16;

// The most literals that a body may have.
pub const MOST_LITERALS: usize = 4;

// A list of at most four literals: an array with its length, since a rule is `Copy`, which an `ArrayVec` is not.
#[derive(Clone, Copy)]
pub struct Body {
    pub(crate) literals: [Literal; MOST_LITERALS],
    pub(crate) len: usize,
    ghost short: { len ≤ 4 },
}

// A rule: the product of its weight and body stays below its head, a statement's degree or a bound.
#[derive(Clone, Copy)]
pub struct Rule {
    pub head: Head,
    pub weight: u8,
    pub body: Body,
}
