// Lines of rows: what is wrong with one, storing it, and the step that does both.
#![tactic(auto)]

pub mod faults;
pub mod items;
pub mod steps;
pub mod storing;
