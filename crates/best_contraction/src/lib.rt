// The best pair to contract: a vertex's ratings, bounds on them, and the choice by bounds, which is equal to the one that model defines.
#![tactic(auto)]

pub mod bounds;
pub mod join;
mod rating;
mod tops;
