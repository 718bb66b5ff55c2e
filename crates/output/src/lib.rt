// Lines of output, written into a place that the caller gives.
#![tactic(auto)]

mod lines;
mod texts;

pub use lines::{LEAST_PLACE, Line, write_line};

#[cfg(test)]
mod tests;
