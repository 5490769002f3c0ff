// A, the n-level cycle, on the tables of a running sale.
#![tactic(auto)]

mod refining;
pub mod whole;
