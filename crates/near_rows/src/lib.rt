// The rows of the index that a move can change, made right after it.
#![tactic(auto)]

pub mod near;
