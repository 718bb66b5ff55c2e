// Rules as text, with the names of their statements.
#![tactic(auto)]

mod rules;

pub use rules::{name_of, rule_text};
