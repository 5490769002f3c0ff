// Who is fixed, as marks that a search begins with.
#![tactic(auto)]

pub mod starting;
