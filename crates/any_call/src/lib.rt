// One call of any kind on the tables of a running sale, answered as the report prints it.
#![tactic(auto)]

pub mod kinds;
pub mod performing;
