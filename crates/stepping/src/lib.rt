// What the lines of every kind share: a fault, what a step gives, and the places of a line.
#![tactic(auto)]

pub mod fault;
pub mod places;
pub mod step;
