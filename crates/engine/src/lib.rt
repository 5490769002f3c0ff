// The engine: a sale file and lent memory in, the report and lent memory out. What customers call.
#![tactic(auto)]

pub mod columns_entry;
pub mod hall;
pub mod hall_columns_entry;
pub mod listing;
pub mod net_pins;
pub mod run;
