// The worked books of the crate `cases`, run: there is no code here but the tests.
#![tactic(auto)]

#[cfg(test)]
mod tests;
