// A call of one catalogue of a hall, beside the others: under both limits, with AboveHallLimit for an M or a B above the hall's.
#![tactic(auto)]

mod limits;
pub mod performing;
