// Conditions as short-circuit programs.
#![tactic(auto)]

mod building;
pub mod programs;
pub mod running;
