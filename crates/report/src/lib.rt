// The command line of the program, and the lines that it writes.
#![tactic(auto)]

pub mod command;
pub mod lines;
pub mod reports;
#[cfg(test)]
mod tests;
