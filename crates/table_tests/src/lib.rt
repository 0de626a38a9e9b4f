// Tests of the attribute table on a system by hand.
#![tactic(auto)]

pub mod largest;
#[cfg(test)]
mod tests;
