// Comparing books, and runs of calls on two of them.
#![tactic(auto)]

mod addenda;
mod answers;
mod calls;
mod comparing;
mod pairs;
mod running;
mod settings;
mod steps;

pub use answers::{Comparison, Which};
pub use calls::{Call, Outcome, RunError, Size};
pub use comparing::compare;
pub use running::run;
