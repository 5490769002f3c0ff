// What X and N go by: their refusals, the buyers that N names, the numbers that are free, the columns of one lot.
#![tactic(auto)]

pub mod free;
pub mod lot;
pub mod naming;
pub mod refusals;
