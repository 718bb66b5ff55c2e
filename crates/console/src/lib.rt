// What the programs share: texts of books are read, and lines and refusals printed. Little is proved of it but that it
// is safe and returns, since no contract speaks of what a program reads or prints.
#![tactic(auto)]

mod inputs;
mod prints;
mod scenes;

pub use inputs::{read_file, read_input};
pub use prints::{Stop, end, finish, print_fault, print_line, print_text, shown};
pub use scenes::write_scenes;

#[cfg(test)]
mod tests;
