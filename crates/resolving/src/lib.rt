// The names of a query resolved against a document, and what is wrong with them: 12, 13, 15 and 17.
#![tactic(auto)]

pub mod columns;
pub mod join_openness;
pub mod joins;
pub mod openness;
pub mod parties;
