// The reserve of a document that the workspace holds.
#![tactic(auto)]

pub mod longest;
mod sums;
