// W, a walk from two vertices, on the tables of a running sale.
#![tactic(auto)]

pub mod kept;
pub mod walks;
