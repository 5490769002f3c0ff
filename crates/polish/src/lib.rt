// P, a greedy polish, on the tables of a running sale.
#![tactic(auto)]

pub mod polishing;
