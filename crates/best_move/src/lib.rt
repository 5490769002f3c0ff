// The best open pair of a vertex and a block, for a walk and for a polish, equal to the choice that model defines.
#![tactic(auto)]

pub mod open;
pub mod peaks;
mod rising;
