// The calls W, P and A on the tables of a running sale.
#![tactic(auto)]

pub mod cycling;
pub mod searching;
