// The format of entry files: what can be wrong with one, and the definitions of reading and writing one.
#![tactic(auto)]

pub mod fault;
