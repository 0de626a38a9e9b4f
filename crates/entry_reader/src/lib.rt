// Reads the fields of an entry file from its front.
#![tactic(auto)]

pub mod name;
pub mod reader;
