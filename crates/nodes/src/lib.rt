// Lines of purposes and roles: what is wrong with one, storing it, and the step that does both.
#![tactic(auto)]

pub mod faults;
pub mod steps;
pub mod storing;
