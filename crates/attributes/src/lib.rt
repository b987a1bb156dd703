// Lines of attributes and conditional roles: what is wrong with one, storing it, and the step that does both.
#![tactic(auto)]

pub mod attr_faults;
pub mod attr_storing;
pub mod cond_faults;
pub mod cond_storing;
pub mod steps;
