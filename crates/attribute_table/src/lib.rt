// The attribute table: evaluates systems of equations on demand, and keeps what became final.
#![tactic(auto)]

pub mod laws;
mod rows;
pub mod session;
pub mod table;

// The record, the rows and the faults of a table, defined with the laws.
pub use table_model::{fault, record, row};
