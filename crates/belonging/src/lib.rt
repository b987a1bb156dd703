// Who belongs to a conditional role: a user's values, and of each conditional role whether its condition holds.
#![tactic(auto)]

pub mod held;
pub mod line;
pub mod values;
