// A move of a search: the candidates that it marks, the rows of nets by which it marks large ones, and the peaks that it raises, so that they are
// still above all gains.
#![tactic(auto)]

pub mod marks;
pub mod peaks;
pub mod rows;
