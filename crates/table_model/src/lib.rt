// What a table of attributes is: its rows, its record and its faults; each call as a relation, and the laws over every list of calls.
#![tactic(auto)]

pub mod fault;
pub mod record;
pub mod row;
