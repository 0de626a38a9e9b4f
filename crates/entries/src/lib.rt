// Entry files, loaded, and the resolvers of their references.
#![tactic(auto)]

mod fields;
pub mod grammar;
mod lookup;
pub mod production;
pub mod resolver;
pub mod sample;
