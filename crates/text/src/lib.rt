// Rule books as text: what a text says is put into a book, or the first fault of the text is named.
#![tactic(auto)]

mod bodies;
mod bytes;
mod checks;
mod cutting;
mod drafts;
mod faults;
mod names;
mod numerals;
mod parsing;
mod reading;
mod shapes;
mod sizes;
mod steps;
mod tokens;

pub use faults::{Layer, LineFault, Place, ReadFault, TextFault};
pub use reading::{LONGEST_TEXT, Named, Reading, read, read_named};
pub use sizes::{OnScale, ScaleKind};
