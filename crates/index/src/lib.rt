// The index of the best moves: a row of 16 places for each vertex, in which its other blocks stand in the order of choice.
#![tactic(auto)]

mod keys;
pub mod numbers;
mod order;
mod rank;
pub mod rows;
mod sort;
