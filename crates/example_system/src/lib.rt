// A system of equations that is written down by hand: an example of how the trait `System` is implemented.
#![tactic(auto)]

pub mod parts;
pub mod system;
#[cfg(test)]
mod tests;
