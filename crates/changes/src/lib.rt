// The calls X and N on the tables of a running sale: lots withdrawn and added.
#![tactic(auto)]

pub mod adding;
mod renewing;
pub mod withdrawing;
