// Ranges in the columns that a query names (27).
#![tactic(auto)]

pub mod join_ranged;
pub mod ranged;
