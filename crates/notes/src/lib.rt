// Lines about a table that stand behind it: what is wrong with one, storing what it says, and the step that does both.
#![tactic(auto)]

pub mod note_faults;
pub mod note_storing;
pub mod steps;
