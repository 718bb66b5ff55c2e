// Rule books and the calls that change them.
#![tactic(auto)]

mod bodies;
mod books;
mod calls;
mod readers;
mod rows;
mod rule;
mod table;

pub use books::Book;
pub use calls::{allowed_size, size_refusal};
pub use rows::{Body, MOST_STATEMENTS, Rule};
pub use rule::{Head, Literal};
