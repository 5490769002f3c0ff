// The calls J, S, M and B on the tables of a running sale: what each refuses, and what it does.
#![tactic(auto)]

pub mod contracting;
pub mod moving;
pub mod refusals;
