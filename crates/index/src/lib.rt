// How many of each kind the workspace holds.
#![tactic(auto)]

pub mod counts;
