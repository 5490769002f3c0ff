// The operations on the tables of a running sale that the calls and the searches share.
#![tactic(auto)]

pub mod board;
pub mod joins;
pub mod moves;
pub mod pairs;
pub mod size;
